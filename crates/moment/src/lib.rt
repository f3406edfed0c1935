// Dates and times as format 303 of a DTM segment writes them, and the day boundaries of German legal time among them, in UTC.

#![tactic(auto)]

ghost use Rattle.std.specs.Prelude.{◌≡◌, ◌≤◌, true};
ghost use Rattle.moment.specs.Moments.{is_dtm_303, is_full_form, number_at, moment_of, exists, of_season, day_boundary};

// A date and a time, whether they exist or not; years are counted as the calendar counts them.
#[derive(Clone, Copy)]
struct Moment {
    year: u16,
    month: u8,
    day: u8,
    hour: u8,
    minute: u8,
}

// A kind of day: the hours and minutes, in UTC, when it begins in summer time, and otherwise.
#[derive(Clone, Copy)]
pub struct Day<'a> {
    pub summer: &'a [u8],
    pub winter: &'a [u8],
}

// Whether a value has the shape CCYYMMDDHHMMZZZ.
#[tactic(auto, unfolding(crate::specs::Moments::is_dtm_303))]
pub fn is_dtm_303(value: &[u8]) -> bool
    ensures { result ≡ is_dtm_303 value.now }
{
    value.len() == 15 && text::all_digits(text::head(value, 12))
}

// Whether a value is in full form: this shape, and `+00` at its end.
#[tactic(auto, unfolding(crate::specs::Moments::is_full_form))]
fn is_full_form(value: &[u8]) -> bool
    ensures { result ≡ is_full_form value.now }
{
    is_dtm_303(value) && text::ends_with(value, b"+00")
}

// The number that two of the twelve digits write.
#[tactic(auto, using(crate::proofs::Laws::inside, crate::proofs::Laws::pair, crate::proofs::Laws::pair_number))]
fn two_digits(value: &[u8], from: usize) -> u8
    requires { (is_full_form value.now ≡ true) × (from ≤ 10) }
    ensures { result ≡ number_at from 2 value.now }
{
    (value[from] - b'0') * 10 + (value[from + 1] - b'0')
}

// The year that the first four write.
#[tactic(auto, using(crate::proofs::Laws::four, crate::proofs::Laws::below_100))]
fn year(value: &[u8]) -> u16
    requires { is_full_form value.now ≡ true }
    ensures { result ≡ number_at 0 4 value.now }
{
    u16::from(two_digits(value, 0)) * 100 + u16::from(two_digits(value, 2))
}

// The moment that the twelve digits write.
#[tactic(auto, using(crate::proofs::Laws::below_10000), unfolding(crate::specs::Moments::moment_of))]
fn moment_of(value: &[u8]) -> Moment
    requires { is_full_form value.now ≡ true }
    ensures { result ≡ moment_of value.now }
{
    Moment {
        year: calendar::ERA_START + year(value),
        month: two_digits(value, 4),
        day: two_digits(value, 6),
        hour: two_digits(value, 8),
        minute: two_digits(value, 10),
    }
}

// Whether the date exists and the day has this time. The parts go to calendar one by one, which says why.
#[tactic(auto, unfolding(crate::specs::Moments::exists))]
fn exists(moment: Moment) -> bool
    ensures { result ≡ exists moment }
{
    calendar::is_date(moment.year, moment.month, moment.day)
        && calendar::is_time(moment.hour, moment.minute)
}

// The hours and minutes when a day of this kind begins, in the season of the moment.
#[tactic(auto, unfolding(crate::specs::Moments::of_season))]
fn of_season<'a>(moment: Moment, day: Day<'a>) -> &'a [u8]
    ensures { result.now ≡ of_season moment day.entry.summer.now day.entry.winter.now }
{
    if calendar::is_mesz(
        moment.year,
        moment.month,
        moment.day,
        moment.hour,
        moment.minute,
    ) {
        return day.summer;
    }
    day.winter
}

// Whether a value is in full form and is a moment when a day of this kind begins.
#[tactic(auto, unfolding(crate::specs::Moments::day_boundary))]
pub fn day_boundary(value: &[u8], day: Day) -> bool
    ensures { result ≡ day_boundary day.entry.summer.now day.entry.winter.now value.now }
{
    if !is_full_form(value) {
        return false;
    }
    let moment = moment_of(value);
    exists(moment) && text::begins_at(value, 8, of_season(moment, day))
}
