// The sum of a journal.
ghost use Rattle.std.specs.Prelude.{◌≡◌};
ghost use Rattle.journal.specs.Tallies.{counted, zeros};

use crate::answer::Answer;
use std::fmt;

// How many calls there were, and how many of them were answered in each way. A count that cannot grow
// stays at its largest value.
#[derive(Clone, Copy)]
pub struct Tally {
    calls: u64,
    accepted: u64,
    refused: u64,
    permitted: u64,
    denied: u64,
    unreadable: u64,
}

impl Tally {
    pub fn new() -> Tally
        ensures { result ≡ zeros }
    {
        Tally {
            calls: 0,
            accepted: 0,
            refused: 0,
            permitted: 0,
            denied: 0,
            unreadable: 0,
        }
    }

    pub fn count(&mut self, answer: &Answer)
        ensures { self.new ≡ counted answer.now self.old }
    {
        self.calls = self.calls.saturating_add(1);
        match answer {
            Answer::Refused(_) => self.refused = self.refused.saturating_add(1),
            Answer::Civil(_) | Answer::Rule(_) | Answer::Note(_) => {}
            Answer::Unreadable(_) => self.unreadable = self.unreadable.saturating_add(1),
        }
    }
}

impl fmt::Display for Tally {
    fn fmt<W: fmt::Write>(&self, f: &mut fmt::Formatter<W>) -> fmt::Result {
        let Tally {
            calls,
            accepted,
            refused,
            permitted,
            denied,
            unreadable,
        } = *self;
        write!(f, "calls {calls} accepted {accepted} refused {refused} ")?;
        write!(
            f,
            "permitted {permitted} denied {denied} unreadable {unreadable}"
        )
    }
}
