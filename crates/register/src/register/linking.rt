// Linking policies to targets.
ghost use Rattle.std.specs.Prelude.{◌≡◌, true, false, ◌&&◌, length, vec_len, nat_lt};
ghost use Rattle.register.specs.Answers.{link as link_call, unlink as unlink_call, done};
ghost use Rattle.register.specs.Requests.{targets_used};
ghost use Rattle.register.specs.Tables.{tables, Served, LinkSet};

use super::super::fault::{Cause, RegisterFault};
use super::super::rule_name::LAST_POLICY;
use super::{Register, USED_TARGETS};

impl Register {
    // Whether a target number is in use.
    pub(super) fn has_target(&self, target: u32) -> bool
        ensures { result ≡ nat_lt target (targets_used (vec_len self.now.targets)) }
    {
        (target as usize) < self.targets.len().min(USED_TARGETS)
    }

    // Enters the link, or takes it away: `on` is the flag that is written.
    fn set_link(&mut self, target: u32, policy: u32, on: bool) -> Result<(), RegisterFault>
        ensures { LinkSet on target policy (tables self.old) (done result) (tables self.new) }
    {
        if !self.has_target(target) {
            return Err(Cause::UnknownTarget.into());
        }
        if policy > LAST_POLICY {
            return Err(Cause::TooHigh.into());
        }
        self.targets[target as usize].mark(policy, on);
        Ok(())
    }

    // Links the policy to the target; where it is linked already, this has no effect.
    pub fn link(&mut self, target: u32, policy: u32) -> Result<(), RegisterFault>
        ensures { Served (link_call target policy) (tables self.old) (done result) (tables self.new) }
    {
        self.set_link(target, policy, true)
    }

    // Takes the link away; where there is none, this has no effect.
    pub fn unlink(&mut self, target: u32, policy: u32) -> Result<(), RegisterFault>
        ensures { Served (unlink_call target policy) (tables self.old) (done result) (tables self.new) }
    {
        self.set_link(target, policy, false)
    }
}
