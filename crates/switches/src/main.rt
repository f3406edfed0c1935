// Holds the switch dates of every year from -999 to 9999 to a count of days from a known Sunday, in which no year is reduced
// by the period of the weekdays. Writes each date that differs, how many were looked at, and how many of them differ. A write
// that fails is passed over.

#![tactic(auto)]

ghost use Rattle.std.specs.Prelude.{◌+◌, ◌-◌, ◌*◌, ◌%◌, ◌≤◌, ◌≡◌};
ghost use Rattle.switches.specs.Switches.{switching, agreeing, differing};

use calendar::ERA_START;
use std::io::Write;

// The number of the known Sunday, 29 March 2026: a multiple of 7, and so large that no day looked at is below 0.
const KNOWN_SUNDAY: u32 = 7_000_000;

const KNOWN_YEAR: u16 = ERA_START + 2026;

const FIRST_YEAR: u16 = ERA_START - 999;

const LAST_YEAR: u16 = ERA_START + 9999;

// Switch dates looked at, and those of them that differ.
#[derive(Clone, Copy)]
struct Seen {
    dates: u32,
    differ: u32,
    ghost fewer: { differ ≤ dates },
}

// A year's number without its sign.
fn unsigned(year: u16) -> u16 {
    year.abs_diff(ERA_START)
}

// The days of a year, by its own number: every fourth has 366, but of the hundredth ones every fourth only.
fn year_days(year: u16) -> u32
    ensures { result ≤ 366 }
{
    let n = unsigned(year);
    if n % 4 == 0 && (n % 100 != 0 || n / 100 % 4 == 0) {
        366
    } else {
        365
    }
}

fn say_differing<W: Write>(out: &mut W, year: u16, month: u8, day: u8) {
    let sign = if year < ERA_START { "-" } else { "" };
    let number = unsigned(year);
    let answered = calendar::last_sunday(year, month);
    console::print(
        out,
        format_args!("{sign}{number} month {month}: counted {day}, answered {answered}\n"),
    );
}

// Whether summer time ends on the day at 01:00, or begins, where the month is not October.
#[tactic(auto, unfolding(crate::specs::Switches::switching))]
fn switches(year: u16, month: u8, day: u8) -> bool
    ensures { result ≡ switching year month day }
{
    let early = calendar::is_mesz(year, month, day, 0, 59);
    let late = calendar::is_mesz(year, month, day, 1, 0);
    if month == 10 {
        early && !late
    } else {
        !early && late
    }
}

// Whether the calendar has the day for the last Sunday, and summer time switches on it: a test of one date, no comparison of two
// values of a type, so nothing derives it.
#[tactic(auto, unfolding(crate::specs::Switches::agreeing))]
fn agrees(year: u16, month: u8, day: u8) -> bool
    ensures { result ≡ agreeing year month day }
{
    calendar::last_sunday(year, month) == u32::from(day) && switches(year, month, day)
}

// One date more: the last Sunday of a month whose 31st has this number. A date that differs is counted.
#[tactic(auto, unfolding(crate::specs::Switches::differing))]
fn look<W: Write>(out: &mut W, seen: Seen, year: u16, month: u8, number: u32) -> Seen
    requires { seen.dates ≤ 1000000 }
    ensures { (result.dates ≡ seen.dates + 1) × (result.differ ≡ seen.differ + differing year month (31 - number % 7)) }
{
    let day = (31 - number % 7) as u8;
    let dates = seen.dates + 1;
    if agrees(year, month, day) {
        return Seen {
            dates,
            differ: seen.differ,
        };
    }
    say_differing(out, year, month, day);
    Seen {
        dates,
        differ: seen.differ + 1,
    }
}

// Both dates of a year more; 214 days after 31 March comes 31 October.
fn look_at_year<W: Write>(out: &mut W, seen: Seen, year: u16, march_31: u32) -> Seen
    requires { (march_31 ≤ 100000000) × (seen.dates ≤ 900000) }
    ensures { (result.dates ≡ seen.dates + 2) × (result.differ ≡ seen.differ + differing year 3 (31 - march_31 % 7) + differing year 10 (31 - (march_31 + 214) % 7)) }
{
    let seen = look(out, seen, year, 3, march_31);
    look(out, seen, year, 10, march_31 + 214)
}

// The days from 31 March of the first year to that of the known one.
fn days_to_known() -> u32
    ensures { result ≤ 1107150 }
{
    let mut days = 0;
    for year in FIRST_YEAR + 1..=KNOWN_YEAR {
        days += year_days(year);
    }
    days
}

// The 10,999 years from -999 to 9999.
fn look_at_years<W: Write>(out: &mut W) -> Seen
    ensures { result.dates ≡ 2 * 10999 }
{
    let mut seen = Seen {
        dates: 0,
        differ: 0,
    };
    let mut march_31 = KNOWN_SUNDAY + 2 - days_to_known();
    for year in FIRST_YEAR..=LAST_YEAR {
        seen = look_at_year(out, seen, year, march_31);
        march_31 += year_days(year + 1);
    }
    seen
}

fn main(rt: HostRuntime) {
    let mut out = rt.stdout();
    let Seen { dates, differ } = look_at_years(&mut out);
    console::print(
        &mut out,
        format_args!("{dates} switch dates of the years -999 to 9999, {differ} differ\n"),
    );
}
