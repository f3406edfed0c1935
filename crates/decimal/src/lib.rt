// Decimal numbers as text: which texts are numbers, the order of their exact values against an integer, and the digits that count.

#![tactic(auto)]

ghost use Rattle.std.specs.Prelude.{◌≡◌, true, ◌++◌, ◌*◌, ◌^◌, min, length};
ghost use Rattle.text.specs.Bytes.{all};
ghost use Rattle.text.specs.Digits.{all_digits, nat_of};
ghost use Rattle.decimal.specs.Decimal.{is_negative, sign_width, unsigned_of, integer_of, fraction_of, is_number, orderℕ, against, is_zero, integer_at_most, fraction_at_most, is_integer};
ghost use Rattle.decimal.specs.Signs.{by_sign};

use std::cmp::Ordering;

// Above every integer that a text is compared with.
const CAP: u64 = 4294967296;

fn all_zeros(s: &[u8]) -> bool
    ensures { result ≡ all is_zero s.now }
{
    s.iter().all(|b| *b == b'0')
}

fn is_negative(s: &[u8]) -> bool
    ensures { result ≡ is_negative s.now }
{
    text::begins_at(s, 0, b"-")
}

fn sign_width(s: &[u8]) -> usize
    ensures { result ≡ sign_width s.now }
{
    if is_negative(s) {
        1
    } else {
        text::plus_width(s)
    }
}

fn unsigned(s: &[u8]) -> &[u8]
    ensures { result.now ≡ unsigned_of s.now }
{
    text::tail(s, sign_width(s))
}

// The digits before the point.
fn integer(s: &[u8]) -> &[u8]
    ensures { result.now ≡ integer_of s.now }
{
    let u = unsigned(s);
    text::head(u, text::find(u, b"."))
}

// The digits after the point, if there is one.
fn fraction(s: &[u8]) -> &[u8]
    ensures { result.now ≡ fraction_of s.now }
{
    let u = unsigned(s);
    text::tail(u, text::find(u, b".") + 1)
}

pub fn is_number(s: &[u8]) -> bool
    ensures { result ≡ is_number s.now }
{
    let w = integer(s);
    if !text::all_digits(w) {
        return false;
    }
    let f = fraction(s);
    text::all_digits(f) && !(w.is_empty() && f.is_empty())
}

// Digits as a number, cut at 2^32.
fn capped(s: &[u8]) -> u64
    requires { all_digits s.now ≡ true }
    ensures { result ≡ min (nat_of s.now) 4294967296 }
{
    let mut n: u64 = 0;
    for b in s {
        n = (n * 10 + u64::from(*b - b'0')).min(CAP);
    }
    n
}

// The size of a number, without its sign, against a natural number.
fn size_order(w: &[u8], f: &[u8], size: u32) -> Ordering
    requires { (all_digits w.now ≡ true) × (all_digits f.now ≡ true) }
    ensures { result ≡ orderℕ (nat_of (w.now ++ f.now)) (size * 10 ^ length f.now) }
{
    match capped(w).cmp(&u64::from(size)) {
        Ordering::Equal if all_zeros(f) => Ordering::Equal,
        Ordering::Equal => Ordering::Greater,
        order => order,
    }
}

// An order of sizes as an order of signed numbers; `zero` says that the second size is 0.
fn by_sign(order: Ordering, minus: bool, below: bool, zero: bool) -> Ordering
    ensures { result ≡ by_sign order minus below zero }
{
    if minus == below {
        return if minus { order.reverse() } else { order };
    }
    if zero && order.is_eq() {
        return Ordering::Equal;
    }
    if minus {
        Ordering::Less
    } else {
        Ordering::Greater
    }
}

// The order of a number against the integer of this size, below zero or not; None of what is no number. Sign and size are two
// arguments, as in the definition `against`.
pub fn compare(s: &[u8], below: bool, size: u32) -> Option<Ordering>
    ensures { result ≡ against s.now below size }
{
    if !is_number(s) {
        return None;
    }
    let order = size_order(integer(s), fraction(s), size);
    Some(by_sign(order, is_negative(s), below, size == 0))
}

// A number with at most k integer digits.
pub fn integer_at_most(s: &[u8], k: usize) -> bool
    ensures { result ≡ integer_at_most s.now k }
{
    if !is_number(s) {
        return false;
    }
    let w = integer(s);
    all_zeros(text::head(w, w.len().saturating_sub(k)))
}

// A number with at most k fraction digits.
pub fn fraction_at_most(s: &[u8], k: usize) -> bool
    ensures { result ≡ fraction_at_most s.now k }
{
    is_number(s) && all_zeros(text::tail(fraction(s), k))
}

// A whole number.
pub fn is_integer(s: &[u8]) -> bool
    ensures { result ≡ is_integer s.now }
{
    fraction_at_most(s, 0)
}
