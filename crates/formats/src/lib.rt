// Format conditions: what each of the 47 that have an evaluator here says of a value.

#![tactic(auto, unfolding(crate::specs::Rules::judged, crate::specs::Table::judged_in, crate::specs::Table::rule_at, crate::specs::Table::id_of))]

ghost use Rattle.std.specs.Prelude.{◌≡◌, ◌++◌};
ghost use Rattle.formats.specs.Rules.{meets, group_ahead, is_unoc_upper, bound, any_number, whole_between, fraction_up_to, integer_up_to, groups_of, length_is, length_up_to, field_is, hhmm_in, unoc_upper, zzz_utc, email_shape, phone_shape, boundary_at, boundary_of, passes, verdict_of};
ghost use Rattle.formats.specs.Table.{digit_rules, shape_rules, time_rules, rules, id_of, judged_in, verdict};
ghost use Rattle.formats.specs.Answers.{verdict_number, verdict_truth, verdict_answer, registered_answer};

use citation::Truth;
use moment::{Day, day_boundary, is_dtm_303};
use refusal::Refusal;
use std::cmp::Ordering;

// What a format condition says of one value.
#[derive(Clone, Copy, Debug, PartialEq, Eq)]
pub enum FormatVerdict {
    Holds,
    Violated,
    Unregistered,
}

impl From<FormatVerdict> for u8 {
    ghost from_gives = { λ v number. number ≡ verdict_number v };

    fn from(v: FormatVerdict) -> u8 {
        match v {
            FormatVerdict::Violated => 0,
            FormatVerdict::Unregistered => 1,
            FormatVerdict::Holds => 2,
        }
    }
}

impl From<FormatVerdict> for Truth {
    ghost from_gives = { λ v truth. truth ≡ verdict_truth v };

    fn from(v: FormatVerdict) -> Truth {
        match v {
            FormatVerdict::Violated => Truth::False,
            FormatVerdict::Unregistered => Truth::Unknown,
            FormatVerdict::Holds => Truth::True,
        }
    }
}

impl From<bool> for FormatVerdict {
    ghost from_gives = { λ passed v. v ≡ verdict_of passed };

    fn from(passed: bool) -> FormatVerdict {
        if passed {
            FormatVerdict::Holds
        } else {
            FormatVerdict::Violated
        }
    }
}

// How a number has to stand to a bound.
#[derive(Clone, Copy, Debug, PartialEq, Eq)]
pub enum Relation {
    AtLeast,
    AtMost,
    GreaterThan,
    LessThan,
    Exactly,
    NotExactly,
}

// What an order says of a relation: a text that is no number stands in none.
fn meets_order(relation: Relation, order: Option<Ordering>) -> bool
    ensures { result ≡ meets relation order }
{
    let Some(order) = order else {
        return false;
    };
    match relation {
        Relation::AtLeast => order.is_ge(),
        Relation::AtMost => order.is_le(),
        Relation::GreaterThan => order.is_gt(),
        Relation::LessThan => order.is_lt(),
        Relation::Exactly => order.is_eq(),
        Relation::NotExactly => order.is_ne(),
    }
}

// Whether the value is a number in this relation to an integer, below zero or not.
// Relation, sign and size are three arguments, as in the rules: a struct of them would be spelt out in each row of `judge`.
fn compare(value: &[u8], relation: Relation, below: bool, size: u32) -> bool
    ensures { result ≡ passes (bound relation below size) value.now }
{
    meets_order(relation, decimal::compare(value, below, size))
}

fn numeric(value: &[u8]) -> bool
    ensures { result ≡ passes any_number value.now }
{
    decimal::is_number(value)
}

// A whole number from low to high.
fn between(value: &[u8], low: u32, high: u32) -> bool
    ensures { result ≡ passes (whole_between low high) value.now }
{
    compare(value, Relation::AtLeast, false, low)
        && compare(value, Relation::AtMost, false, high)
        && decimal::is_integer(value)
}

fn max_fraction_digits(value: &[u8], most: usize) -> bool
    ensures { result ≡ passes (fraction_up_to most) value.now }
{
    decimal::fraction_at_most(value, most)
}

fn max_integer_digits(value: &[u8], most: usize) -> bool
    ensures { result ≡ passes (integer_up_to most) value.now }
{
    decimal::integer_at_most(value, most)
}

// So many digits and a `-` stand in front.
fn group_ahead(rest: &[u8], width: usize) -> bool
    ensures { result ≡ group_ahead width rest.now }
{
    text::all_digits(text::head(rest, width)) && text::begins_at(rest, width, b"-")
}

// Groups of so many digits each, joined by `-`.
#[tactic(auto, unfolding(crate::specs::Rules::digit_groups))]
fn digit_groups(value: &[u8], widths: &[usize]) -> bool
    ensures { result ≡ passes (groups_of widths.now) value.now }
{
    let Some((last, before)) = widths.split_last() else {
        return false;
    };
    let mut rest = value;
    for width in before {
        if !group_ahead(rest, *width) {
            return false;
        }
        rest = text::tail(rest, *width + 1);
    }
    rest.len() == *last && text::all_digits(rest)
}

fn exact_length(value: &[u8], count: usize) -> bool
    ensures { result ≡ passes (length_is count) value.now }
{
    utf8::count(value) == count
}

fn max_length(value: &[u8], most: usize) -> bool
    ensures { result ≡ passes (length_up_to most) value.now }
{
    utf8::count(value) <= most
}

// A text that stands from a byte on in a value CCYYMMDDHHMMZZZ.
fn dtm_303_field(value: &[u8], at: usize, want: &[u8]) -> bool
    ensures { result ≡ passes (field_is at want.now) value.now }
{
    is_dtm_303(value) && text::begins_at(value, at, want)
}

// Four digits in this relation to a bound.
fn hhmm(value: &[u8], relation: Relation, limit: u32) -> bool
    ensures { result ≡ passes (hhmm_in relation limit) value.now }
{
    value.len() == 4 && text::all_digits(value) && compare(value, relation, false, limit)
}

// Marks of the Latin-1 codes: true where condition 918 admits the character.
const UNOC_UPPER: [bool; 256] = [
    false, false, false, false, false, false, false, false, false, false, false, false, false,
    false, false, false, false, false, false, false, false, false, false, false, false, false,
    false, false, false, false, false, false, true, true, true, true, true, true, true, true, true,
    true, true, true, true, true, true, true, true, true, true, true, true, true, true, true, true,
    true, true, true, true, true, true, true, true, true, true, true, true, true, true, true, true,
    true, true, true, true, true, true, true, true, true, true, true, true, true, true, true, true,
    true, true, true, true, true, true, true, true, false, false, false, false, false, false,
    false, false, false, false, false, false, false, false, false, false, false, false, false,
    false, false, false, false, false, false, false, true, true, true, true, false, false, false,
    false, false, false, false, false, false, false, false, false, false, false, false, false,
    false, false, false, false, false, false, false, false, false, false, false, false, false,
    false, false, false, false, true, true, true, true, true, true, true, true, true, true, false,
    true, true, true, true, true, true, true, true, true, true, false, true, true, true, true,
    false, true, true, true, true, true, true, true, true, true, true, true, true, true, true,
    true, true, true, true, true, true, true, true, true, true, true, true, true, true, true, true,
    true, true, true, true, true, true, false, false, false, false, false, false, false, false,
    false, false, false, false, false, false, false, false, false, false, false, false, false,
    false, false, false, true, false, false, false, false, false, false, false, false,
];

fn is_unoc_upper(code: u32) -> bool
    ensures { result ≡ is_unoc_upper code }
{
    code < 256 && UNOC_UPPER[code as usize]
}

fn unoc_upper(value: &[u8]) -> bool
    ensures { result ≡ passes unoc_upper value.now }
{
    for (_, code) in utf8::Walker::new(value, 0) {
        let Some(code) = code else {
            return false;
        };
        if !is_unoc_upper(code) {
            return false;
        }
    }
    true
}

fn zzz_utc(value: &[u8]) -> bool
    ensures { result ≡ passes zzz_utc value.now }
{
    text::ends_with(value, b"+00")
}

fn email_shape(value: &[u8]) -> bool
    ensures { result ≡ passes email_shape value.now }
{
    text::has(value, b"@") && text::has(value, b".")
}

fn phone_shape(value: &[u8]) -> bool
    ensures { result ≡ passes phone_shape value.now }
{
    2 <= value.len() && text::begins_at(value, 0, b"+") && text::all_digits(text::tail(value, 1))
}

// A day that begins at midnight in Germany.
const MIDNIGHT: Day<'static> = Day {
    summer: b"2200",
    winter: b"2300",
};

// A gas day, which begins at six o'clock in Germany.
const GAS_DAY: Day<'static> = Day {
    summer: b"0400",
    winter: b"0500",
};

// A day boundary of one kind or of the other.
fn either_boundary(value: &[u8], one: Day, other: Day) -> bool
    ensures { result ≡ passes (boundary_of one.entry.summer.now one.entry.winter.now other.entry.summer.now other.entry.winter.now) value.now }
{
    day_boundary(value, one) || day_boundary(value, other)
}

// Times and day boundaries. The match of `judge` is cut in four, a family of rules each, since a function here has under 40 lines.
// A call of its own: what its arguments take of registers and stack would else be taken for every condition.
#[inline(never)]
fn judge_times(id: u32, value: &[u8]) -> FormatVerdict
    ensures { result ≡ judged_in time_rules id value.now }
{
    let passed = match id {
        932 => dtm_303_field(value, 8, b"2200"),
        933 => dtm_303_field(value, 8, b"2300"),
        934 => dtm_303_field(value, 8, b"0400"),
        935 => dtm_303_field(value, 8, b"0500"),
        947 => dtm_303_field(value, 4, b"12312300"),
        964 => hhmm(value, Relation::AtLeast, 0),
        965 => hhmm(value, Relation::AtMost, 2359),
        1001 => day_boundary(value, MIDNIGHT),
        1002 => day_boundary(value, GAS_DAY),
        1003 => either_boundary(value, MIDNIGHT, GAS_DAY),
        _ => return FormatVerdict::Unregistered,
    };
    FormatVerdict::from(passed)
}

// Digit groups, lengths and other shapes, then the rest.
fn judge_shapes(id: u32, value: &[u8]) -> FormatVerdict
    ensures { result ≡ judged_in (shape_rules ++ time_rules) id value.now }
{
    let passed = match id {
        942 => digit_groups(value, &[1, 2, 1, 3]),
        943 => digit_groups(value, &[1, 2, 1]),
        948 => digit_groups(value, &[1, 2, 1, 8, 2]),
        949 => digit_groups(value, &[1, 2, 1, 8, 2, 1]),
        957 => digit_groups(value, &[1, 2, 1, 8]),
        959 => digit_groups(value, &[13, 2]),
        904 => exact_length(value, 16),
        905 => max_length(value, 3),
        918 => unoc_upper(value),
        931 => zzz_utc(value),
        939 => email_shape(value),
        940 => phone_shape(value),
        _ => return judge_times(id, value),
    };
    FormatVerdict::from(passed)
}

// Digits after and before the point, then the rest.
fn judge_digits(id: u32, value: &[u8]) -> FormatVerdict
    ensures { result ≡ judged_in (digit_rules ++ (shape_rules ++ time_rules)) id value.now }
{
    let passed = match id {
        906 => max_fraction_digits(value, 3),
        907 => max_fraction_digits(value, 4),
        912 => max_fraction_digits(value, 6),
        925 => max_fraction_digits(value, 5),
        930 => max_fraction_digits(value, 2),
        937 => max_fraction_digits(value, 0),
        946 => max_fraction_digits(value, 11),
        917 => max_integer_digits(value, 4),
        962 => max_integer_digits(value, 6),
        _ => return judge_shapes(id, value),
    };
    FormatVerdict::from(passed)
}

// Numbers against a bound, then the rest. The match on numbers is the original's, arm by arm, so that both can be held side by
// side.
fn judge(id: u32, value: &[u8]) -> FormatVerdict
    ensures { result ≡ judged_in rules id value.now }
{
    let passed = match id {
        902 => compare(value, Relation::AtLeast, false, 0),
        903 => compare(value, Relation::Exactly, false, 1),
        908 => compare(value, Relation::AtLeast, false, 1),
        909 => compare(value, Relation::AtLeast, false, 0),
        910 => numeric(value),
        913 => between(value, 1, 99999),
        914 => compare(value, Relation::GreaterThan, false, 0),
        915 => compare(value, Relation::NotExactly, false, 1),
        926 => compare(value, Relation::Exactly, false, 0),
        927 => compare(value, Relation::Exactly, true, 1),
        929 => compare(value, Relation::Exactly, false, 1000),
        938 => compare(value, Relation::AtMost, false, 10),
        955 => compare(value, Relation::LessThan, false, 100),
        963 => compare(value, Relation::AtMost, false, 100),
        968 => compare(value, Relation::AtMost, false, 0),
        969 => compare(value, Relation::AtMost, false, 1),
        _ => return judge_digits(id, value),
    };
    FormatVerdict::from(passed)
}

// The number of a text of three digits or of UB and a digit.
fn id_of(text: &[u8]) -> Option<u32>
    ensures { result ≡ id_of text.now }
{
    let [a, b, c] = text else {
        return None;
    };
    if !text::is_digit(*c) {
        return None;
    }
    let last = u32::from(*c - b'0');
    if text::is_digit(*a) && text::is_digit(*b) {
        return Some(u32::from(*a - b'0') * 100 + u32::from(*b - b'0') * 10 + last);
    }
    if *a == b'U' && *b == b'B' {
        return Some(1000 + last);
    }
    None
}

// The verdict of the condition with this text on a value, whatever their bytes.
#[tactic(auto, using(crate::proofs::Ids::verdict_some, crate::proofs::Ids::verdict_none))]
pub fn verdict_on(text: &[u8], value: &[u8]) -> FormatVerdict
    ensures { result ≡ verdict text.now value.now }
{
    match id_of(text) {
        Some(id) => judge(id, value),
        None => FormatVerdict::Unregistered,
    }
}

pub fn evaluate(text: &[u8], value: &[u8]) -> Result<FormatVerdict, Refusal>
    ensures { result ≡ verdict_answer text.now value.now }
{
    utf8::admit(text, utf8::TEXT_LIMIT)?;
    utf8::admit(value, utf8::VALUE_LIMIT)?;
    Ok(verdict_on(text, value))
}

pub fn is_registered(text: &[u8]) -> Result<bool, Refusal>
    ensures { result ≡ registered_answer text.now }
{
    utf8::admit(text, utf8::TEXT_LIMIT)?;
    Ok(verdict_on(text, b"") != FormatVerdict::Unregistered)
}
