// Finding the month of a day. Months are counted from January 2000, and days from 1 January 2000, both from 0.
ghost use Rattle.std.specs.Prelude.{◌≡◌, ◌+◌, ◌*◌, ◌/◌, ◌<◌, ◌≤◌, min};
ghost use Rattle.calendar.specs.Gregorian.{first_day, month_of};

use crate::first_days::first_day;

// The month of a day by the average length of a month, 487 / 16 days. Two days are added so that it never comes before
// the day's month; it is that month or the next one.
fn estimate(day: u32) -> usize
    requires { day < 36525 }
    ensures value { result ≡ min ((day + 2) * 16 / 487) 1199 }
    ensures found { first_day result ≤ day → month_of day ≡ result }
    ensures next { day < first_day result → month_of day + 1 ≡ result }
{
    ((day as usize + 2) * 16 / 487).min(1199)
}

// The month that has a day.
pub(crate) fn month_of(day: u32) -> usize
    requires { day < 36525 }
    ensures { result ≡ month_of day }
{
    let month = estimate(day);
    if day < first_day(month) {
        month - 1
    } else {
        month
    }
}
