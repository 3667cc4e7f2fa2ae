// Rules as rows of tables hold them.
ghost use Rattle.std.specs.Prelude.{◌≡◌, []};
ghost use Rattle.notes.specs.Notes.{rule_note, rule_value, plain_note, plain_value};

use super::super::set::Set;
use super::{PlainRule, Rule, RuleParts, Side};
use texts::Few;

impl PlainRule {
    // What a row holds that no rule was put into.
    pub fn empty() -> PlainRule
        ensures { plain_note result ≡ [] }
    {
        PlainRule {
            note: Few::new(),
            parts: RuleParts {
                side: Side::Privileges,
                authenticated: false,
                operations: Set::default(),
                originators: Few::new(),
                child_types: Few::new(),
                contexts: Few::new(),
            },
        }
    }

    pub fn note(&self) -> &[u8]
        ensures { result.now ≡ plain_note self.now }
    {
        self.note.as_slice()
    }

    pub fn parts(&self) -> &RuleParts
        ensures { result.now ≡ self.now.parts }
    {
        &self.parts
    }
}

impl Rule {
    // The rule without its promises.
    pub fn plain(&self) -> PlainRule
        ensures note { plain_note result ≡ rule_note self.now }
        ensures value { plain_value result ≡ rule_value self.now }
    {
        self.plain
    }
}
