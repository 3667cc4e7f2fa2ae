// The names of rules.
ghost use Rattle.std.specs.Prelude.{◌≡◌, true, false, MatchResult};
ghost use Rattle.register.specs.Answers.{too_high};
ghost use Rattle.register.specs.declared.fault.Cause.TheVariants.{TooHigh};

use super::fault::Cause;

pub(super) const LAST_POLICY: u32 = 63;

const LAST_NUMBER: u32 = 1023;

// A rule by its policy and its number. The order goes by the policy first.
#[derive(Clone, Copy, Debug, PartialEq, Eq, PartialOrd, Ord)]
pub struct RuleName {
    pub policy: u32,
    pub number: u32,
}

impl RuleName {
    // Whether a register has such a policy and such a rule number.
    pub(super) fn check(self) -> Result<(), Cause>
        ensures { MatchResult result (λ _. too_high self.policy self.number ≡ false) (λ c. (c ≡ TooHigh) × (too_high self.policy self.number ≡ true)) }
    {
        if self.policy > LAST_POLICY || self.number > LAST_NUMBER {
            return Err(Cause::TooHigh);
        }
        Ok(())
    }
}
