// Withdrawing a rule.
ghost use Rattle.register.specs.Answers.{withdraw as withdraw_call, done};
ghost use Rattle.register.specs.Tables.{tables, Served};

use super::super::fault::{Cause, RegisterFault};
use super::super::rule_name::RuleName;
use super::Register;

impl Register {
    // Removes the rule of this policy and number, and frees its row.
    pub fn withdraw(&mut self, policy: u32, number: u32) -> Result<(), RegisterFault>
        ensures { Served (withdraw_call policy number) (tables self.old) (done result) (tables self.new) }
    {
        let name = RuleName { policy, number };
        name.check()?;
        let i = self.find_rule(name).ok_or(Cause::Missing)?;
        self.rows[i].mark_free();
        Ok(())
    }
}
