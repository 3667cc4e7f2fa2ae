// A rule: one permission.
ghost use Rattle.std.specs.Prelude.{◌≡◌, true};
ghost use Rattle.notes.specs.Rules.{rule_of, rule_lawful, note_of};
ghost use Rattle.texts.specs.Few.{listed};

use super::context::Context;
use super::originator::Originator;
use super::set::Set;
use texts::Few;

mod note;
mod parts;
mod plain;
mod reading;
mod words;
mod writing;

pub use note::originator_text;

// The bytes of the longest note.
pub const MAX_NOTE: usize = 615;

#[derive(Clone, Copy, PartialEq, Eq, Debug)]
pub enum Side {
    Privileges,
    SelfPrivileges,
}

// The first 16 bits of a note.
#[derive(Clone, Copy)]
pub struct Head {
    side: Side,
    authenticated: bool,
    operations: Set<u32, 6>,
    originators: usize,
    contexts: usize,
    child_types: usize,
}

// The parts of a rule. The texts of its originators stand in the note.
#[derive(Clone, Copy)]
pub struct RuleParts {
    side: Side,
    authenticated: bool,
    operations: Set<u32, 6>,
    originators: Few<Originator, 4>,
    child_types: Few<u16, 4>,
    contexts: Few<Context, 2>,
}

// A rule as a row of a table holds it: the note and the parts, with no promise that they belong together.
#[derive(Clone, Copy)]
pub struct PlainRule {
    note: Few<u8, MAX_NOTE>,
    parts: RuleParts,
}

// A rule, with the note that it was read from. There is no other rule: each is some note's.
#[derive(Clone, Copy)]
pub struct Rule {
    plain: PlainRule,
    ghost lawful: { rule_lawful (rule_of (listed plain.note) plain.parts) ≡ true },
    ghost same: { note_of (rule_of (listed plain.note) plain.parts) ≡ listed plain.note },
}
