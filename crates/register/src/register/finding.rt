// Finding rows.
ghost use Rattle.std.specs.Prelude.{◌≡◌, not, position};
ghost use Rattle.register.specs.Entries.{is_named, is_used, hits};
ghost use Rattle.register.specs.Answers.{stands};
ghost use Rattle.register.specs.Tables.{tables, used_rows, holdings};

use super::super::row::RuleRow;
use super::super::rule_name::RuleName;
use super::Register;

impl Register {
    // Whether there is a rule of this name.
    pub(super) fn has_rule(&self, name: RuleName) -> bool
        ensures { result ≡ stands (holdings (tables self.now)) name.policy name.number }
    {
        self.find_rule(name).is_some()
    }

    // The place of the rule of this name.
    pub(super) fn find_rule(&self, name: RuleName) -> Option<usize>
        ensures { result ≡ position (hits (is_named name.policy name.number)) (used_rows (tables self.now)) }
    {
        self.used_rows().iter().position(|row| row.is_named(name))
    }

    // The place of a free row.
    pub(super) fn find_free(&self) -> Option<usize>
        ensures { result ≡ position (λ x. not (is_used x)) (used_rows (tables self.now)) }
    {
        self.used_rows().iter().position(RuleRow::is_free)
    }
}
