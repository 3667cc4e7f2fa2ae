// A window in words: its sets that are not full.
ghost use Rattle.std.specs.Prelude.{◌≡◌, ◌+◌, ◌-◌, ◌<◌, ◌≤◌, not, ◌&&◌, ◌||◌, ◌==◌};
ghost use Rattle.notes.specs.Sets.{member};

use super::super::set::{Digits, Set};
use super::{ClockSets, DateSets, Window};
use std::fmt;

// What a set of a window counts: its name, and the first value that it can hold.
#[derive(Clone, Copy)]
struct Scale {
    name: &'static str,
    first: u16,
}

const SECONDS: Scale = Scale {
    name: "seconds",
    first: 0,
};

const MINUTES: Scale = Scale {
    name: "minutes",
    first: 0,
};

const HOURS: Scale = Scale {
    name: "hours",
    first: 0,
};

const DAYS: Scale = Scale {
    name: "days",
    first: 1,
};

const MONTHS: Scale = Scale {
    name: "months",
    first: 1,
};

const WEEKDAYS: Scale = Scale {
    name: "weekdays",
    first: 0,
};

const YEARS: Scale = Scale {
    name: "years",
    first: 2000,
};

impl<D: Digits, const W: usize> Set<D, W> {
    // Whether a run of neighbours in the set begins with `v`.
    fn opens(&self, v: u8) -> bool
        requires { (v < W) × (W ≤ 128) }
        ensures { result ≡ (member W (D.number self.now.bits) v && (v == 0 || not (member W (D.number self.now.bits) (v - 1)))) }
    {
        self.has(v) && (v == 0 || !self.has(v - 1))
    }

    // Whether a run of neighbours in the set ends with `v`.
    fn closes(&self, v: u8) -> bool
        requires { (v < W) × (W ≤ 128) }
        ensures { result ≡ (member W (D.number self.now.bits) v && (v + 1 == W || not (member W (D.number self.now.bits) (v + 1)))) }
    {
        self.has(v) && (v as usize + 1 == W || !self.has(v + 1))
    }

    // The runs of the set, joined by commas. A run of one value is that value, a longer one has a hyphen.
    fn write_values<F: fmt::Write>(&self, first: u16, f: &mut fmt::Formatter<F>) -> fmt::Result
        requires { W ≤ 128 }
    {
        let mut any = false;
        // Each `v` is a number that may be in the set, and its neighbours are asked for too.
        for v in 0..W as u8 {
            let value = u32::from(first) + u32::from(v);
            if self.opens(v) {
                if any {
                    f.write_char(',')?;
                }
                any = true;
                write!(f, "{value}")?;
            } else if self.closes(v) {
                write!(f, "-{value}")?;
            }
        }
        Ok(())
    }

    // The set if it is not full, behind a blank if `any` was written before. Answers whether any is written now, which goes on
    // from set to set: seven sets of five types are no list that could be joined.
    fn write_words<F: fmt::Write>(
        &self,
        any: bool,
        scale: Scale,
        f: &mut fmt::Formatter<F>,
    ) -> Result<bool, fmt::Error>
        requires { W < 128 }
    {
        if self.is_full() {
            return Ok(any);
        }
        if any {
            f.write_char(' ')?;
        }
        f.write_str(scale.name)?;
        f.write_char(' ')?;
        self.write_values(scale.first, f)?;
        Ok(true)
    }
}

fn write_clock<F: fmt::Write>(
    sets: &ClockSets,
    f: &mut fmt::Formatter<F>,
) -> Result<bool, fmt::Error> {
    let any = sets.seconds.write_words(false, SECONDS, f)?;
    let any = sets.minutes.write_words(any, MINUTES, f)?;
    sets.hours.write_words(any, HOURS, f)
}

fn write_date<F: fmt::Write>(
    any: bool,
    sets: &DateSets,
    f: &mut fmt::Formatter<F>,
) -> Result<bool, fmt::Error> {
    let any = sets.days.write_words(any, DAYS, f)?;
    let any = sets.months.write_words(any, MONTHS, f)?;
    let any = sets.weekdays.write_words(any, WEEKDAYS, f)?;
    sets.years.write_words(any, YEARS, f)
}

impl fmt::Display for Window {
    fn fmt<W: fmt::Write>(&self, f: &mut fmt::Formatter<W>) -> fmt::Result {
        let any = write_clock(&self.clock, f)?;
        if write_date(any, &self.date, f)? {
            return Ok(());
        }
        f.write_str("always")
    }
}
