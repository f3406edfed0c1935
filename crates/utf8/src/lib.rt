// UTF-8: the character at a place, whether bytes are well-formed, how many characters they are, white space, and what is tested of every text first.
// By the table of the Unicode Standard, which the definitions spell out, and not by std's `str`: what is proved here goes back to the table alone.

#![tactic(auto)]

ghost use Rattle.std.specs.Prelude.{◌≡◌, ◌&&◌, ◌+◌, ◌-◌, ◌*◌, ◌^◌, ◌≤◌, leb, length, drop};
ghost use Rattle.std.specs.Iterator.{at_most};
ghost use Rattle.utf8.specs.Utf8.{lead_of, char_of, code_of, step_at, all_ascii, is_utf8, char_count, scanned};
ghost use Rattle.utf8.specs.Walker.{Gives};
ghost use Rattle.utf8.specs.White.{is_white};
ghost use Rattle.utf8.specs.Limits.{admitted};

use refusal::Refusal;

// A row of table 3-7: how many bytes follow, the second byte's range, the first byte's part of the code.
type Lead = (usize, u8, u8, u32);

// The character at a place. `Walker` tells a bad byte from the end: an `Option` of a `Result` would nest for it, and for all others it is one arm more.
#[derive(Clone, Copy)]
pub enum Step {
    Char { code: u32, width: usize },
    Bad,
    End,
}

// The row of a first byte.
fn lead_of(b: u8) -> Option<Lead>
    ensures { result ≡ lead_of b }
{
    if b < 0x80 {
        return Some((0, 0x80, 0xBF, u32::from(b)));
    }
    if b < 0xC2 {
        return None;
    }
    if b < 0xE0 {
        return Some((1, 0x80, 0xBF, u32::from(b - 0xC0)));
    }
    if b < 0xE1 {
        return Some((2, 0xA0, 0xBF, 0));
    }
    if b < 0xED {
        return Some((2, 0x80, 0xBF, u32::from(b - 0xE0)));
    }
    if b < 0xEE {
        return Some((2, 0x80, 0x9F, 13));
    }
    if b < 0xF0 {
        return Some((2, 0x80, 0xBF, u32::from(b - 0xE0)));
    }
    if b < 0xF1 {
        return Some((3, 0x90, 0xBF, 0));
    }
    if b < 0xF4 {
        return Some((3, 0x80, 0xBF, u32::from(b - 0xF0)));
    }
    if b < 0xF5 {
        return Some((3, 0x80, 0x8F, 4));
    }
    None
}

// The bytes from `at` that complete a character of which `more` bytes are due.
fn rest(s: &[u8], at: usize, more: usize, low: u8, high: u8, code: u32) -> Step
    requires { (at ≤ length s.now) × ((0x80 ≤ low) × ((high ≤ 0xBF) × (((code + 1) * 64 ^ more ≤ 2097152) × (more ≤ 3)))) }
    ensures { result ≡ char_of more (code_of more low high code (drop at s.now)) }
{
    let mut from = low;
    let mut to = high;
    let mut value = code;
    for k in 0..more {
        if s.len() <= at + k {
            return Step::Bad;
        }
        let b = s[at + k];
        if b < from || to < b {
            return Step::Bad;
        }
        value = value * 64 + u32::from(b - 0x80);
        from = 0x80;
        to = 0xBF;
    }
    Step::Char {
        code: value,
        width: more + 1,
    }
}

pub fn step_at(s: &[u8], at: usize) -> Step
    ensures { result ≡ step_at s.now at }
{
    if s.len() <= at {
        return Step::End;
    }
    match lead_of(s[at]) {
        None => Step::Bad,
        Some((more, low, high, code)) => rest(s, at + 1, more, low, high, code),
    }
}

// Whether every byte is ASCII.
fn all_ascii(s: &[u8]) -> bool
    ensures { result ≡ all_ascii s.now }
{
    s.is_ascii()
}

// Goes over the characters of a text from a place on, each given with the place where it begins; a byte that fits none has no code and is the last.
#[derive(Clone, Copy)]
pub struct Walker<'a> {
    pub text: &'a [u8],
    pub at: usize,
}

impl<'a> Walker<'a> {
    pub fn new(text: &'a [u8], at: usize) -> Walker<'a>
        ensures { (result.text ≡ text.entry) × (result.at ≡ at) }
    {
        Walker { text, at }
    }

    // The character here.
    pub fn step(&self) -> Step
        ensures { result ≡ step_at self.now.text.now self.now.at }
    {
        step_at(self.text, self.at)
    }

    // The number of the next byte.
    pub fn offset(&self) -> usize
        ensures { result ≡ self.now.at }
    {
        self.at
    }
}

impl<'a> Iterator for Walker<'a> {
    type Item = (usize, Option<u32>);

    ghost next_gives = { λ old given new. (new.text.now ≡ old.text.now) × Gives old.text.now old.at given new.at };

    ghost remaining = { λ c. at_most (length c.text.now - c.at) };

    fn next(&mut self) -> Option<(usize, Option<u32>)> {
        let place = self.at;
        match step_at(self.text, place) {
            Step::Char { code, width } => {
                self.at = place + width;
                Some((place, Some(code)))
            }
            Step::Bad => {
                self.at = self.text.len();
                Some((place, None))
            }
            Step::End => None,
        }
    }
}

// Reads a text up to its end, or to the first byte that fits no character; the characters that were passed.
fn scan(s: &[u8]) -> Result<usize, usize>
    ensures { result ≡ scanned s.now }
{
    let mut chars = 0;
    for (_, code) in Walker::new(s, 0) {
        match code {
            Some(_) => chars += 1,
            None => return Err(chars),
        }
    }
    Ok(chars)
}

// A text so long that all its bytes are first tested for ASCII.
const LONG: usize = 64;

fn long_ascii(s: &[u8]) -> bool
    ensures { result ≡ leb 64 (length s.now) && all_ascii s.now }
{
    LONG <= s.len() && all_ascii(s)
}

pub fn is_utf8(s: &[u8]) -> bool
    ensures { result ≡ is_utf8 s.now }
{
    long_ascii(s) || scan(s).is_ok()
}

// How many characters stand before the end, or before the first byte that fits none.
pub fn count(s: &[u8]) -> usize
    ensures { result ≡ char_count s.now }
{
    match scan(s) {
        Ok(chars) | Err(chars) => chars,
    }
}

// White space, as Unicode has it.
pub fn is_white(code: u32) -> bool
    ensures { result ≡ is_white code }
{
    match code {
        0x09..=0x0D => true,
        0x20 | 0x85 | 0xA0 | 0x1680 => true,
        0x2000..=0x200A => true,
        0x2028..=0x2029 => true,
        0x202F | 0x205F | 0x3000 => true,
        _ => false,
    }
}

// The longest text and the longest value, in bytes.
pub const TEXT_LIMIT: usize = 4400;

pub const VALUE_LIMIT: usize = 1024;

// The tests that come before all others: the length in bytes, then the encoding.
pub fn admit(s: &[u8], most: usize) -> Result<(), Refusal>
    ensures { result ≡ admitted most s.now (Ok tt) }
{
    if most < s.len() {
        return Err(Refusal::TooLong);
    }
    if !is_utf8(s) {
        return Err(Refusal::NotUtf8);
    }
    Ok(())
}
