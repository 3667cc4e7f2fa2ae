// What a request is answered.
ghost use Rattle.std.specs.Prelude.{◌≡◌, ◌+◌, ◌^◌, ◌<◌};
ghost use Rattle.register.specs.Verdicts.{number_in, with_one_more};

use super::rule_name::RuleName;

#[derive(Clone, Copy, PartialEq, Eq, Debug)]
pub enum Verdict {
    // The lowest admitting rule, and how many admit. Callers match on the numbers one by one.
    Permit {
        policy: u32,
        number: u32,
        count: u32,
    },
    Deny,
}

impl Verdict {
    // The verdict with one admitting rule more.
    pub(super) fn with(self, name: RuleName) -> Verdict
        requires { number_in self + 1 < 2 ^ 32 }
        ensures { result ≡ with_one_more self name.policy name.number }
    {
        match self {
            Verdict::Deny => Verdict::Permit {
                policy: name.policy,
                number: name.number,
                count: 1,
            },
            Verdict::Permit {
                policy,
                number,
                count,
            } => {
                let lowest = name.min(RuleName { policy, number });
                let count = count + 1;
                Verdict::Permit {
                    policy: lowest.policy,
                    number: lowest.number,
                    count,
                }
            }
        }
    }
}
