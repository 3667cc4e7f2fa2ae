// A window of time: seven sets, one for each value of an instant.
ghost use Rattle.std.specs.Prelude.{◌≡◌, ◌<◌, length};
ghost use Rattle.bits.specs.Reader.{bytes, source, place};
ghost use Rattle.bits.specs.Writer.{Wrote};
ghost use Rattle.calendar.specs.Civil.{Valid};
ghost use Rattle.notes.specs.declared.window.Window.{Window as WindowValue};
ghost use Rattle.notes.specs.Told.{Read, Fits};
ghost use Rattle.notes.specs.Windows.{clock_form, clock_reads, clock_admits, clock_contains};
ghost use Rattle.notes.specs.Windows.{date_form, date_reads, date_admits, date_contains};
ghost use Rattle.notes.specs.Windows.{window_lawful, window_form, window_reads, window_admits, window_covers};
ghost use Rattle.notes.specs.WindowsLemmas.{lawful_window, window_long, window_sound};
ghost use Rattle.std.proofs.Common.{arith};

use super::constraint::Constraint;
use super::fault::NoteFault;
use super::packed::{Packed, Writable};
use super::set::Set;
use bits::{BitReader, BitWriter};
use calendar::{CivilTime, Instant};

pub(super) mod words;

// The sets of a clock's values and those of a date's are two structs of the same form: each names its own fields.
#[derive(Clone, Copy, Default)]
pub struct ClockSets {
    seconds: Set<u64, 60>,
    minutes: Set<u64, 60>,
    hours: Set<u32, 24>,
}

#[derive(Clone, Copy, Default)]
pub struct DateSets {
    days: Set<u32, 31>,
    months: Set<u32, 12>,
    weekdays: Set<u32, 7>,
    years: Set<u128, 100>,
}

#[derive(Clone, Copy, Default)]
pub struct Window {
    clock: ClockSets,
    date: DateSets,
}

impl ClockSets {
    fn read(r: &mut BitReader) -> Result<ClockSets, NoteFault>
        ensures { Read clock_reads r.old result r.new }
    {
        let seconds = Set::read(r)?;
        let minutes = Set::read(r)?;
        let hours = Set::read(r)?;
        Ok(ClockSets {
            seconds,
            minutes,
            hours,
        })
    }

    #[tactic(auto, using(crate::proofs::Room::room))]
    fn write(&self, w: &mut BitWriter)
        requires { Fits w.old (length (clock_form self.now)) }
        ensures { Wrote w.old w.new (clock_form self.now) }
    {
        self.seconds.write(w);
        self.minutes.write(w);
        self.hours.write(w);
    }

    fn admits(&self, time: CivilTime) -> bool
        requires { Valid time }
        ensures { result ≡ clock_admits self.now time }
    {
        self.seconds.has(time.second) && self.minutes.has(time.minute) && self.hours.has(time.hour)
    }

    fn contains(&self, other: &ClockSets) -> bool
        ensures { result ≡ clock_contains self.now other.now }
    {
        self.seconds.contains(&other.seconds)
            && self.minutes.contains(&other.minutes)
            && self.hours.contains(&other.hours)
    }
}

impl DateSets {
    fn read(r: &mut BitReader) -> Result<DateSets, NoteFault>
        ensures { Read date_reads r.old result r.new }
    {
        let days = Set::read(r)?;
        let months = Set::read(r)?;
        let weekdays = Set::read(r)?;
        let years = Set::read(r)?;
        Ok(DateSets {
            days,
            months,
            weekdays,
            years,
        })
    }

    #[tactic(auto, using(crate::proofs::Room::room))]
    fn write(&self, w: &mut BitWriter)
        requires { Fits w.old (length (date_form self.now)) }
        ensures { Wrote w.old w.new (date_form self.now) }
    {
        self.days.write(w);
        self.months.write(w);
        self.weekdays.write(w);
        self.years.write(w);
    }

    fn admits(&self, time: CivilTime) -> bool
        requires { Valid time }
        ensures { result ≡ date_admits self.now time }
    {
        self.days.has(time.day - 1)
            && self.months.has(time.month - 1)
            && self.weekdays.has(time.weekday)
            && self.years.has((time.year - 2000) as u8)
    }

    fn contains(&self, other: &DateSets) -> bool
        ensures { result ≡ date_contains self.now other.now }
    {
        self.days.contains(&other.days)
            && self.months.contains(&other.months)
            && self.weekdays.contains(&other.weekdays)
            && self.years.contains(&other.years)
    }
}

impl Packed for Window {
    const LEAST_WIDTH: usize = 294;

    ghost LEAST_WIDTH = { 294 };

    ghost value = { WindowValue };

    ghost meant = { λ x. x };

    ghost lawful = { window_lawful };

    ghost form = { window_form };

    ghost reads = { window_reads };

    ghost round = { lawful_window };

    ghost shortest = { λ x h. omega (arith, window_long x) };

    fn read(r: &mut BitReader) -> Result<Window, NoteFault> {
        let clock = ClockSets::read(r)?;
        let date = DateSets::read(r)?;
        Ok(Window { clock, date })
    }
}

impl Writable for Window {
    fn write(&self, w: &mut BitWriter) {
        self.clock.write(w);
        self.date.write(w);
    }
}

impl Constraint for Window {
    type Value = Instant;

    ghost admitted = { λ w t. window_admits w t.civil };

    ghost covered = { window_covers };

    ghost sound = { λ a b v. window_sound a b v.civil };

    fn admits(&self, v: &Instant) -> bool {
        let time = v.civil();
        self.clock.admits(time) && self.date.admits(time)
    }

    fn covers(&self, other: &Window) -> bool {
        self.clock.contains(&other.clock) && self.date.contains(&other.date)
    }
}
