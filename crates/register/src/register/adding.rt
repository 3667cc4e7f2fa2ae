// Adding a rule.
ghost use Rattle.register.specs.Answers.{add as add_call, done};
ghost use Rattle.register.specs.Tables.{tables, Served};

use super::super::fault::{Cause, RegisterFault};
use super::super::row::{HeldRule, RuleRow};
use super::super::rule_name::RuleName;
use super::Register;
use notes::Rule;

impl Register {
    // Stores the note's rule under the policy and the number, in a free row.
    pub fn add(&mut self, policy: u32, number: u32, note: &[u8]) -> Result<(), RegisterFault>
        ensures { Served (add_call policy number note.now) (tables self.old) (done result) (tables self.new) }
    {
        let name = RuleName { policy, number };
        name.check()?;
        // Not by `map_err`, which would move a rule once more.
        let rule = match Rule::read(note) {
            Ok(rule) => rule,
            Err(fault) => return Err(RegisterFault::in_note(fault, name)),
        };
        if self.has_rule(name) {
            return Err(Cause::Taken.into());
        }
        let i = self.find_free().ok_or(Cause::Full)?;
        self.rows[i] = RuleRow::holding(HeldRule::new(name, &rule));
        Ok(())
    }
}
