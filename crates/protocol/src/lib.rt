// Lines of a word and fields, each after one space: byte strings read from lower-case hex, and
// written.

#![tactic(auto)]

ghost use Rattle.std.specs.Prelude.{◌≡◌, [], ◌+◌, ◌*◌, ◌≤◌, ◌<◌, length, get_or, IfSome};
ghost use Rattle.fields.specs.Appended.{Appended};
ghost use Rattle.protocol.specs.Hex.{digit_of, digit_value, field_of, pairs, filled, Within};
ghost use Rattle.text.specs.Bytes.{over};
ghost use Rattle.protocol.specs.Pieces.{pieces};

use fields::put_byte;

#[tactic(auto, unfolding(crate::specs::Hex::digit_of))]
fn digit_of(d: u8) -> u8
    requires { d < 16 }
    ensures { result ≡ digit_of d }
{
    if d < 10 { 48 + d } else { 87 + d }
}

#[tactic(auto, unfolding(crate::specs::Hex::digit_value))]
fn digit_value(b: u8) -> Option<u8>
    ensures value { result ≡ digit_value b }
    ensures upper_bound { IfSome result (λ d. d < 16) }
{
    match b {
        b'0'..=b'9' => Some(b - b'0'),
        b'a'..=b'f' => Some(b - b'a' + 10),
        _ => None,
    }
}

// Puts what pairs of digits write at the start of out, up to the first that is no pair, and returns
// how many bytes: as many as `decode` puts, also where that answers None.
pub fn put_pairs(field: &[u8], out: &mut [u8]) -> usize
    requires { length field.now ≤ 2 * length out.old }
    ensures value { (result ≡ length (pairs field.now)) × (2 * result ≤ length field.now) }
    ensures out_after { out.new ≡ over (pairs field.now) out.old }
{
    let count = field.len() / 2;
    for n in 0..count {
        let Some(high) = digit_value(field[2 * n]) else {
            return n;
        };
        let Some(low) = digit_value(field[2 * n + 1]) else {
            return n;
        };
        out[n] = high * 16 + low;
    }
    count
}

// Puts a field's byte string at the start of out, and returns its length.
pub fn decode(field: &[u8], out: &mut [u8]) -> Option<usize>
    requires { length field.now ≤ 2 * length out.old }
    ensures value { result ≡ filled field.now }
    ensures within { IfSome result (λ n. Within n out.new) }
    ensures out_after { out.new ≡ over (pairs field.now) out.old }
{
    let n = put_pairs(field, out);
    let is_whole = !field.is_empty() && 2 * n == field.len();
    (text::same_bytes(field, b"-") || is_whole).then_some(n)
}

// How many pieces a line has: its word, and its fields. Spaces are added up without a branch, which is compiled to several bytes a turn; `filter` takes one by one.
pub fn count_pieces(line: &[u8]) -> usize
    ensures { result ≡ length (pieces line.now) }
{
    let mut n = 1;
    for b in line {
        n += usize::from(*b == b' ');
    }
    n
}

// A line's piece by its number, the word being number 0; one that is not there is empty.
pub fn piece(line: &[u8], number: usize) -> &[u8]
    ensures result_value { result.now ≡ get_or (pieces line.now) number [] }
    ensures result_in_bounds { length result.now ≤ length line.now }
{
    line.split(|b| *b == b' ').nth(number).unwrap_or(&[])
}

// Writes s as a field at a place of out, and answers the place behind it. Buffer and place are two parameters, as in crate fields, which says why.
pub fn put_hex(out: &mut [u8], at: usize, s: &[u8]) -> usize
    requires { at + (2 * length s.now + 1) ≤ length out.old }
    ensures upper_bound { result ≤ at + (2 * length s.now + 1) }
    ensures appended { Appended (field_of s.now) at out.old out.new result }
{
    if s.is_empty() {
        return put_byte(out, at, b'-');
    }
    let mut to = at;
    for b in s {
        to = put_byte(out, to, digit_of(b / 16));
        to = put_byte(out, to, digit_of(b % 16));
    }
    to
}
