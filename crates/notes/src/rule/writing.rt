// Writing a rule as its note.
ghost use Rattle.std.specs.Prelude.{◌≡◌, ℕ, ◌≤◌, List, length};
ghost use Rattle.std.specs.List.{flat_map};
ghost use Rattle.bits.specs.Writer.{Wrote};
ghost use Rattle.notes.specs.Notes.{rule_note, Filled};
ghost use Rattle.notes.specs.Originators.{originator_of, originator_form};
ghost use Rattle.notes.specs.Rules.{side_code, flag_code as code_of_flag, head_of, head_form, rule_of, rule_form};
ghost use Rattle.notes.specs.Told.{Fits};

use super::super::lists::write_list;
use super::super::writing::put;
use super::{Head, MAX_NOTE, Rule, RuleParts, Side};
use bits::BitWriter;

// The number of a side in its field.
impl From<Side> for u128 {
    ghost from_gives = { λ side n. n ≡ side_code side };

    fn from(side: Side) -> u128 {
        match side {
            Side::Privileges => 0,
            Side::SelfPrivileges => 1,
        }
    }
}

// A function, so that its contract says the number of a flag by the definition.
fn flag_code(flag: bool) -> u128
    ensures { result ≡ code_of_flag flag }
{
    u8::from(flag) as u128
}

impl Head {
    #[tactic(auto, using(crate::proofs::Room::room))]
    fn write(&self, w: &mut BitWriter)
        requires { Fits w.old 16 }
        ensures { Wrote w.old w.new (head_form self.now) }
    {
        put(w, 1, u128::from(self.side));
        put(w, 1, flag_code(self.authenticated));
        self.operations.write(w);
        put(w, 3, self.originators as u128);
        put(w, 2, self.contexts as u128);
        put(w, 3, self.child_types as u128);
    }
}

impl RuleParts {
    // The head counts the lists, whatever the texts are.
    fn head(&self) -> Head
        ensures { (note : List ℕ) → result ≡ head_of (rule_of note self.now) }
    {
        Head {
            side: self.side,
            authenticated: self.authenticated,
            operations: self.operations,
            originators: self.originators.as_slice().len(),
            contexts: self.contexts.as_slice().len(),
            child_types: self.child_types.as_slice().len(),
        }
    }

    fn write(&self, note: &[u8], w: &mut BitWriter)
        requires { Fits w.old (length (rule_form (rule_of note.now self.now))) }
        ensures { Wrote w.old w.new (rule_form (rule_of note.now self.now)) }
    {
        self.head().write(w);
        write_list(self.originators.as_slice(), note, w);
        write_list(self.child_types.as_slice(), note, w);
        write_list(self.contexts.as_slice(), note, w);
    }
}

impl Rule {
    fn write_to(&self, out: &mut [u8]) -> usize
        requires { 615 ≤ length out.old }
        ensures { Filled (rule_note self.now) out.old out.new result }
    {
        let mut w = BitWriter::new(out);
        self.plain.parts.write(self.note(), &mut w);
        // Zero bits up to a whole byte.
        let end = w.place();
        let size = (end + 7) / 8;
        put(&mut w, (size * 8 - end) as usize, 0);
        size as usize
    }

    // Fills the front of the buffer with the rule's note, leaves the rest, and answers the note's length. The buffer is an array,
    // so that it is long enough by its type and writing cannot fail.
    pub fn write(&self, out: &mut [u8; MAX_NOTE]) -> usize
        ensures { Filled (rule_note self.now) out.old out.new result }
    {
        self.write_to(out)
    }
}
