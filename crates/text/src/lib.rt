// Byte strings: where a text stands in another, parts, and unsigned numbers up to a largest one.

#![tactic(auto)]

ghost use Rattle.std.specs.Prelude.{◌≡◌, length, take, drop};
ghost use Rattle.text.specs.Bytes.{begins, ends, same, place, has, position, part};
ghost use Rattle.text.specs.Digits.{is_digit, all_digits, has_plus, plus_width, digits_up_to, number_up_to};

// What stands from a place on: nothing past the end.
pub fn tail(s: &[u8], from: usize) -> &[u8]
    ensures { result.now ≡ drop from s.now }
{
    &s[from.min(s.len())..]
}

// What stands before a place: all if it is past the end.
pub fn head(s: &[u8], to: usize) -> &[u8]
    ensures { result.now ≡ take to s.now }
{
    &s[..to.min(s.len())]
}

// So many bytes from a place on, as far as the text goes.
pub fn between(s: &[u8], from: usize, count: usize) -> &[u8]
    ensures { result.now ≡ part from count s.now }
{
    head(tail(s, from), count)
}

// Whether the text stands at a place; past the end only an empty one does.
pub fn begins_at(s: &[u8], at: usize, text: &[u8]) -> bool
    ensures { result ≡ begins text.now (drop at s.now) }
{
    tail(s, at).starts_with(text)
}

pub fn ends_with(s: &[u8], text: &[u8]) -> bool
    ensures { result ≡ ends text.now s.now }
{
    s.ends_with(text)
}

pub fn same_bytes(s: &[u8], text: &[u8]) -> bool
    ensures { result ≡ same text.now s.now }
{
    s == text
}

// The first place of the text, if it stands anywhere.
pub fn position(s: &[u8], text: &[u8]) -> Option<usize>
    ensures { result ≡ position text.now s.now }
{
    for i in 0..s.len() {
        if begins_at(s, i, text) {
            return Some(i);
        }
    }
    None
}

// The first place of the text; the length if it is nowhere, a place where `head` and `tail` can cut.
pub fn find(s: &[u8], text: &[u8]) -> usize
    ensures { result ≡ place text.now s.now }
{
    position(s, text).unwrap_or(s.len())
}

// Whether the text stands anywhere.
pub fn has(s: &[u8], text: &[u8]) -> bool
    ensures { result ≡ has text.now s.now }
{
    position(s, text).is_some()
}

pub fn is_digit(b: u8) -> bool
    ensures { result ≡ is_digit b }
{
    b.is_ascii_digit()
}

// Whether eight bytes are digits. All are looked at: a loop with one way out is compiled to one byte a turn.
fn eight_digits(s: &[u8; 8]) -> bool
    ensures { result ≡ all_digits s.now }
{
    let mut digits = true;
    for b in s {
        digits &= is_digit(*b);
    }
    digits
}

// The same of any bytes, one by one.
fn each_digit(s: &[u8]) -> bool
    ensures { result ≡ all_digits s.now }
{
    s.iter().all(|b| is_digit(*b))
}

// Whether every byte is a digit, by eights; no index is counted, the slice that is left gets shorter.
pub fn all_digits(s: &[u8]) -> bool
    ensures { result ≡ all_digits s.now }
{
    let mut rest = s;
    while let Some((eight, after)) = rest.split_first_chunk::<8>() {
        if !eight_digits(eight) {
            return false;
        }
        rest = after;
    }
    each_digit(rest)
}

// One or more digits, a number up to `most`.
pub fn digits_up_to(s: &[u8], most: u64) -> Option<u64>
    ensures { result ≡ digits_up_to most s.now }
{
    if s.is_empty() {
        return None;
    }
    let mut n: u64 = 0;
    for b in s {
        if !is_digit(*b) {
            return None;
        }
        n = n.checked_mul(10)?.checked_add(u64::from(*b - b'0'))?;
        if most < n {
            return None;
        }
    }
    Some(n)
}

fn has_plus(s: &[u8]) -> bool
    ensures { result ≡ has_plus s.now }
{
    begins_at(s, 0, b"+")
}

// The width of a leading `+`.
pub fn plus_width(s: &[u8]) -> usize
    ensures { result ≡ plus_width s.now }
{
    usize::from(has_plus(s))
}

// The same after one `+` or none.
pub fn number_up_to(s: &[u8], most: u64) -> Option<u64>
    ensures { result ≡ number_up_to most s.now }
{
    digits_up_to(tail(s, plus_width(s)), most)
}
