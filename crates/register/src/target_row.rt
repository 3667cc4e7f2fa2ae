// Entries of the target table.
ghost use Rattle.std.specs.Prelude.{◌≡◌, ◌<◌, false, slice_index_or, slice_set};
ghost use Rattle.register.specs.Targets.{unlinked as no_links};

// Which policies are linked to the target: a policy above 63 is not.
// A flag for each of the 64 policies, since a table has a fixed size.
#[derive(Clone, Copy)]
pub struct TargetRow {
    linked: [bool; 64],
}

impl TargetRow {
    pub fn unlinked() -> TargetRow
        ensures { result ≡ no_links }
    {
        TargetRow {
            linked: [false; 64],
        }
    }

    pub(super) fn has(&self, policy: u32) -> bool
        ensures { result ≡ slice_index_or self.now.linked policy false }
    {
        self.linked.get(policy as usize).copied().unwrap_or(false)
    }

    // `on` is the flag that is written.
    pub(super) fn mark(&mut self, policy: u32, on: bool)
        requires { policy < 64 }
        ensures { self.new.linked ≡ slice_set self.old.linked policy on }
    {
        self.linked[policy as usize] = on;
    }
}
