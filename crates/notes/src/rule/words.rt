// A rule in words.
ghost use Rattle.std.specs.Prelude.{Some};
ghost use Rattle.notes.specs.Written.{side_name};

use super::super::context::words::write_list;
use super::super::operation::Operation;
use super::super::originator::Originator;
use super::{Rule, RuleParts, Side};
use std::fmt;

impl fmt::Display for Side {
    ghost output = { λ side. Some (side_name side) };

    fn fmt<W: fmt::Write>(&self, f: &mut fmt::Formatter<W>) -> fmt::Result {
        f.write_str(match self {
            Side::Privileges => "privileges",
            Side::SelfPrivileges => "selfPrivileges",
        })
    }
}

fn write_originators<W: fmt::Write>(
    items: &[Originator],
    note: &[u8],
    f: &mut fmt::Formatter<W>,
) -> fmt::Result {
    f.write_joined(items.iter().map(|o| o.in_note(note)), ", ")
}

impl RuleParts {
    fn write_operations<W: fmt::Write>(&self, f: &mut fmt::Formatter<W>) -> fmt::Result {
        if self.operations.is_empty() {
            return f.write_str("none");
        }
        let named = Operation::ALL.iter().filter(|o| self.has_operation(**o));
        f.write_joined(named, ",")
    }

    // The texts of the originators stand in the note.
    fn write_words<W: fmt::Write>(&self, note: &[u8], f: &mut fmt::Formatter<W>) -> fmt::Result {
        let side = self.side;
        write!(f, "{side} ")?;
        self.write_operations(f)?;
        f.write_str(" from ")?;
        write_originators(self.originators.as_slice(), note, f)?;
        if self.authenticated {
            f.write_str(" if authenticated")?;
        }
        write_list(" for types ", self.child_types.as_slice(), ",", f)?;
        write_list(" ", self.contexts.as_slice(), " or ", f)
    }
}

impl fmt::Display for Rule {
    fn fmt<W: fmt::Write>(&self, f: &mut fmt::Formatter<W>) -> fmt::Result {
        f.write_str("rule ")?;
        self.parts().write_words(self.note(), f)
    }
}
