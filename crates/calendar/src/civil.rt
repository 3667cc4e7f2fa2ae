// Civil time: what a calendar and a clock show.
ghost use Rattle.std.specs.Prelude.{◌≡◌, ◌+◌, ◌-◌, ◌%◌, ◌<◌, ◌≤◌};
ghost use Rattle.calendar.specs.Gregorian.{first_day};
ghost use Rattle.calendar.specs.Civil.{civil_of, last_second, Examples};

use crate::first_days::first_day;
use crate::months::month_of;
use std::fmt;

#[derive(Clone, Copy, PartialEq, Eq, Debug)]
pub struct CivilTime {
    pub second: u8,
    pub minute: u8,
    pub hour: u8,
    // 1 to 31
    pub day: u8,
    // 1 to 12
    pub month: u8,
    // 0 is Sunday
    pub weekday: u8,
    pub year: u16,
}

impl fmt::Display for CivilTime {
    fn fmt<W: fmt::Write>(&self, f: &mut fmt::Formatter<W>) -> fmt::Result {
        let CivilTime {
            second,
            minute,
            hour,
            day,
            month,
            weekday,
            year,
        } = *self;
        write!(
            f,
            "{year:04}-{month:02}-{day:02} {hour:02}:{minute:02}:{second:02} weekday {weekday}"
        )
    }
}

// The weekday of a day, counted from 1 January 2000.
fn weekday_of(day: u32) -> u8
    requires { day < 36525 }
    ensures { result ≡ (6 + day) % 7 }
{
    // Day 0 was a Saturday.
    ((6 + day) % 7) as u8
}

// The day of its month that a day is, from 1 on.
fn day_of_month(day: u32, month: usize) -> u8
    requires { (month < 1200) × (first_day month ≤ day) × (day < first_day month + 31) }
    ensures { result ≡ day - first_day month + 1 }
{
    (day - first_day(month) + 1) as u8
}

// The civil time of an instant.
pub(crate) fn civil_at(seconds: u32) -> CivilTime
    requires { seconds ≤ last_second }
    ensures { result ≡ civil_of seconds }
{
    let day = seconds / 86_400;
    let month = month_of(day);
    CivilTime {
        second: (seconds % 60) as u8,
        minute: (seconds / 60 % 60) as u8,
        hour: (seconds / 3600 % 24) as u8,
        day: day_of_month(day, month),
        month: (month % 12 + 1) as u8,
        weekday: weekday_of(day),
        year: (2000 + month / 12) as u16,
    }
}

// Two worked examples of the civil time of an instant, as a theorem.
pub fn examples_hold()
    ensures { Examples }
{}
