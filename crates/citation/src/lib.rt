// What a citation is: its kind, the bounds of a Paket citation, and the truth that is said of a condition.

#![tactic(auto)]

ghost use Rattle.std.specs.Prelude.{◌≡◌};
ghost use Rattle.text.specs.Digits.{digits_up_to};
ghost use Rattle.citation.specs.Truths.{truth_number, truth_of};
ghost use Rattle.citation.specs.Kinds.{kind_number, largest_number, kind_of_number, kind_of, kind_answer};
ghost use Rattle.citation.specs.Pakete.{range_of, bounds_of, paket_of, paket_answer};

use refusal::Refusal;

// The largest number that a citation can name, and the largest bound of a Paket.
const LARGEST_NUMBER: u64 = 4294967295;

const LARGEST_BOUND: u64 = 18446744073709551615;

// The value of a condition.
#[derive(Clone, Copy, Debug, PartialEq, Eq)]
pub enum Truth {
    False,
    Unknown,
    True,
    Neutral,
}

impl From<Truth> for u8 {
    ghost from_gives = { λ truth number. number ≡ truth_number truth };

    fn from(truth: Truth) -> u8 {
        match truth {
            Truth::False => 0,
            Truth::Unknown => 1,
            Truth::True => 2,
            Truth::Neutral => 3,
        }
    }
}

impl From<bool> for Truth {
    ghost from_gives = { λ b truth. truth ≡ truth_of b };

    fn from(b: bool) -> Truth {
        if b { Truth::True } else { Truth::False }
    }
}

// What kind of condition a citation names.
#[derive(Clone, Copy, Debug, PartialEq, Eq)]
pub enum ConditionKind {
    Voraussetzung,
    Hinweis,
    Format,
    Wiederholbarkeit,
    Zeitpunkt,
    Paket,
    Other,
}

// The number that digits write, if it is no larger than the largest.
fn digits_of(text: &[u8]) -> Option<u64>
    ensures { result ≡ digits_up_to largest_number text.now }
{
    text::digits_up_to(text, LARGEST_NUMBER)
}

impl From<ConditionKind> for u8 {
    ghost from_gives = { λ kind number. number ≡ kind_number kind };

    fn from(kind: ConditionKind) -> u8 {
        match kind {
            ConditionKind::Voraussetzung => 0,
            ConditionKind::Hinweis => 1,
            ConditionKind::Format => 2,
            ConditionKind::Wiederholbarkeit => 3,
            ConditionKind::Zeitpunkt => 4,
            ConditionKind::Paket => 5,
            ConditionKind::Other => 6,
        }
    }
}

// The kind of a condition with this number.
impl From<u64> for ConditionKind {
    ghost from_gives = { λ n kind. kind ≡ kind_of_number n };

    fn from(n: u64) -> ConditionKind {
        match n {
            1..=499 => ConditionKind::Voraussetzung,
            500..=899 => ConditionKind::Hinweis,
            901..=999 => ConditionKind::Format,
            2000..=2499 => ConditionKind::Wiederholbarkeit,
            _ => ConditionKind::Other,
        }
    }
}

impl ConditionKind {
    // The kind of a text in any form: `UB` in front first, then a `P`, then the number.
    #[tactic(auto, unfolding(crate::specs::Kinds::kind_of))]
    fn of_any(text: &[u8]) -> ConditionKind
        ensures { result ≡ kind_of text.now }
    {
        if text::begins_at(text, 0, b"UB") {
            return ConditionKind::Zeitpunkt;
        }
        if text::has(text, b"P") {
            return ConditionKind::Paket;
        }
        match text::number_up_to(text, LARGEST_NUMBER) {
            Some(n) => ConditionKind::from(n),
            None => ConditionKind::Other,
        }
    }

    // The kind that a citation's text names, whatever its bytes. Most are digits alone, and those are neither a Zeitpunkt nor a Paket.
    pub fn of_text(text: &[u8]) -> ConditionKind
        ensures { result ≡ kind_of text.now }
    {
        match digits_of(text) {
            Some(n) => ConditionKind::from(n),
            None => ConditionKind::of_any(text),
        }
    }

    pub fn of(text: &[u8]) -> Result<ConditionKind, Refusal>
        ensures { result ≡ kind_answer text.now }
    {
        utf8::admit(text, utf8::TEXT_LIMIT)?;
        Ok(ConditionKind::of_text(text))
    }
}

// How often a Paket's code may stand: at least low, and at most high if there is one. The Paket's name is the first `name` bytes: a number, so that
// what was parsed outlives the text, as the original's does.
#[derive(Clone, Copy)]
pub struct Paket {
    pub name: usize,
    pub low: u64,
    pub high: Option<u64>,
}

// The bounds after a name of so many bytes, low and high parted by `..`.
#[tactic(auto, unfolding(crate::specs::Pakete::range_of))]
fn range_of(name: usize, r: &[u8]) -> Result<Paket, Refusal>
    ensures { result ≡ range_of name r.now }
{
    let at = text::position(r, b"..").ok_or(Refusal::NotAPaket)?;
    let low = text::number_up_to(text::head(r, at), LARGEST_BOUND).ok_or(Refusal::NotAPaket)?;
    let last = text::tail(r, at + 2);
    let high = if text::same_bytes(last, b"n") {
        None
    } else {
        Some(text::number_up_to(last, LARGEST_BOUND).ok_or(Refusal::NotAPaket)?)
    };
    Ok(Paket { name, low, high })
}

// The bounds after a name of so many bytes.
fn bounds_of(name: usize, r: &[u8]) -> Result<Paket, Refusal>
    ensures { result ≡ bounds_of name r.now }
{
    if r.is_empty() {
        return Ok(Paket {
            name,
            low: 0,
            high: None,
        });
    }
    range_of(name, r)
}

impl Paket {
    // The Paket that a citation's text names, whatever its bytes.
    #[tactic(auto, unfolding(crate::specs::Pakete::paket_of))]
    pub fn of_text(text: &[u8]) -> Result<Paket, Refusal>
        ensures { result ≡ paket_of text.now }
    {
        let p = text::position(text, b"P").ok_or(Refusal::NotAPaket)?;
        if p == 0 || !text::all_digits(text::head(text, p)) {
            return Err(Refusal::NotAPaket);
        }
        bounds_of(p + 1, text::tail(text, p + 1))
    }

    pub fn parse(text: &[u8]) -> Result<Paket, Refusal>
        ensures { result ≡ paket_answer text.now }
    {
        utf8::admit(text, utf8::TEXT_LIMIT)?;
        Paket::of_text(text)
    }
}
