// The note of a rule, as it is written.
ghost use Rattle.std.specs.Prelude.{◌≡◌};
ghost use Rattle.journal.specs.Answers.{written};
ghost use Rattle.notes.specs.Notes.{rule_note};

use notes::{MAX_NOTE, Rule};
use std::fmt;
use texts::Few;

#[derive(Clone, Copy)]
pub struct Written {
    note: Few<u8, MAX_NOTE>,
}

impl Written {
    pub fn of_rule(rule: &Rule) -> Written
        ensures { written result ≡ rule_note rule.now }
    {
        let mut space = [0; MAX_NOTE];
        let len = rule.write(&mut space);
        Written {
            note: Few::of(&space[0..len]).unwrap(),
        }
    }
}

impl fmt::Display for Written {
    fn fmt<W: fmt::Write>(&self, f: &mut fmt::Formatter<W>) -> fmt::Result {
        for byte in self.note.as_slice() {
            write!(f, "{byte:02x}")?;
        }
        Ok(())
    }
}
