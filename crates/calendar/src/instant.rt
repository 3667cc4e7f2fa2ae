// Instants: seconds since 2000-01-01 00:00:00 UTC, without leap seconds.
ghost use Rattle.std.specs.Prelude.{◌≡◌, ◌<◌, ◌≤◌, MatchOption};
ghost use Rattle.calendar.specs.Civil.{civil_of, last_second, EveryValidInRange, OnlyInstant, OnlyReading, Reads};

use crate::civil::{CivilTime, civil_at};

// The last second of 2099.
const LAST_SECOND: u32 = 3_155_759_999;

// The civil time is kept, since it is read more often than an instant is made.
#[derive(Clone, Copy)]
pub struct Instant {
    seconds: u32,
    civil: CivilTime,
    ghost within: { seconds ≤ last_second },
    ghost reads: { civil ≡ civil_of seconds },
}

impl Instant {
    // The instant, unless it lies after 2099.
    pub fn new(seconds: u32) -> Option<Instant>
        ensures { MatchOption result (last_second < seconds) (λ i. (seconds ≤ last_second) × (i.seconds ≡ seconds) × (i.civil ≡ civil_of seconds)) }
    {
        if seconds <= LAST_SECOND {
            Some(Instant {
                seconds,
                civil: civil_at(seconds),
            })
        } else {
            None
        }
    }

    pub fn seconds(&self) -> u32
        ensures value { result ≡ self.now.seconds }
        ensures within { result ≤ last_second }
    {
        self.seconds
    }

    // The civil time of the instant. Each of the two determines the other, and each valid civil time is that of an
    // instant.
    pub fn civil(&self) -> CivilTime
        ensures value { result ≡ civil_of self.now.seconds }
        ensures reads { Reads self.now.seconds result }
        ensures only { OnlyReading self.now.seconds result }
        ensures instant { OnlyInstant self.now.seconds result }
        ensures every { EveryValidInRange }
    {
        self.civil
    }
}
