// The proleptic Gregorian calendar: dates and times that exist, last Sundays, and the summer time of German legal time. A date's
// parts are parameters of their own: the functions take two, three or five of them, so that one struct would be taken apart in each.

#![tactic(auto)]

ghost use Rattle.std.specs.Prelude.{◌≡◌, ◌%◌, ◌≤◌, ◌<◌};
ghost use Rattle.calendar.specs.Calendar.{is_leap, month_days, before_month, is_date, is_time, last_sunday, moment_of, is_mesz};

// Years are counted from 1200 years before the year 0.
pub const ERA_START: u16 = 1200;

const COMMON: [u8; 13] = [0, 31, 28, 31, 30, 31, 30, 31, 31, 30, 31, 30, 31];

fn is_leap(year: u16) -> bool
    ensures { result ≡ is_leap year }
{
    year % 4 == 0 && (year % 100 != 0 || year % 400 == 0)
}

#[tactic(auto, unfolding(crate::specs::Calendar::month_days))]
fn month_days(year: u16, month: u8) -> u8
    ensures { result ≡ month_days year month }
{
    if month == 2 {
        return if is_leap(year) { 29 } else { 28 };
    }
    COMMON.get(usize::from(month)).copied().unwrap_or(0)
}

#[tactic(auto, unfolding(crate::specs::Calendar::is_date))]
pub fn is_date(year: u16, month: u8, day: u8) -> bool
    ensures { result ≡ is_date year month day }
{
    1 <= day && day <= month_days(year, month)
}

#[tactic(auto, unfolding(crate::specs::Calendar::is_time))]
pub fn is_time(hour: u8, minute: u8) -> bool
    ensures { result ≡ is_time hour minute }
{
    hour <= 23 && minute <= 59
}

// The days of a year before one of its months, without whole weeks. Its code goes into its callers, as that of the two functions below: most of them know the month.
#[inline(always)]
fn before_month(year: u16, month: u8) -> u16
    ensures { result ≡ before_month year month % 7 }
{
    let mut n: u16 = 0;
    for k in 0..month {
        n += u16::from(month_days(year, k));
    }
    n % 7
}

// The last Sunday of a month of 31 days, in one of the first 400 years. Beside whole weeks a year leaves a day, a leap year
// two.
#[inline(always)]
fn last_sunday_in_period(year: u16, month: u8) -> u16
    requires { year < 400 }
    ensures { result ≡ last_sunday year month }
{
    let leaps = (year + 3) / 4 + (year + 399) / 400 - (year + 99) / 100;
    31 - (year + leaps + before_month(year, month) + 30 + 6) % 7
}

// The last Sunday of a month of 31 days. Weekdays recur after 400 years.
#[inline(always)]
pub fn last_sunday(year: u16, month: u8) -> u32
    ensures { result ≡ last_sunday year month }
{
    u32::from(last_sunday_in_period(year % 400, month))
}

// MMDDhhmm as a number: tuples in order would say otherwise where a part is over 99, which the definition allows.
fn moment(month: u32, day: u32, hour: u32, minute: u32) -> u32
    requires { (month ≤ 255) × ((day ≤ 255) × ((hour ≤ 255) × (minute ≤ 255))) }
    ensures { result ≡ moment_of month day hour minute }
{
    ((month * 100 + day) * 100 + hour) * 100 + minute
}

// Whether a moment, in UTC, lies in the summer time of its year.
#[tactic(auto, unfolding(crate::specs::Calendar::is_mesz))]
pub fn is_mesz(year: u16, month: u8, day: u8, hour: u8, minute: u8) -> bool
    ensures { result ≡ is_mesz year month day hour minute }
{
    let at = moment(
        u32::from(month),
        u32::from(day),
        u32::from(hour),
        u32::from(minute),
    );
    moment(3, last_sunday(year, 3), 1, 0) <= at && at < moment(10, last_sunday(year, 10), 1, 0)
}
