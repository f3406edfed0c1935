// Numbers of two bytes at a place of a byte string, and bytes written one after another.

#![tactic(auto)]

ghost use Rattle.std.specs.Prelude.{◌≡◌, [], ◌∷◌, ◌+◌, ◌≤◌, ◌<◌, length, map, take, drop};
ghost use Rattle.grammar.specs.Bytes.{field, two_bytes};
ghost use Rattle.fields.specs.Appended.{Appended};

// The number in two bytes, little-endian. A usize, here and where numbers are written, since callers count and index with it: as u16 it would be converted at nearly every use.
pub fn get16(s: &[u8], at: usize) -> usize
    requires { at + 1 < length s.now }
    ensures { (result ≡ field s.now at) × (result < 65536) }
{
    usize::from(u16::from_le_bytes([s[at], s[at + 1]]))
}

// One byte; the answer is the place after it, here and below. Buffer and place stay two parameters: as one struct, with methods, they were tried here and in printer, and
// printing the table took 1.7 times as long, where one form may cost a tenth. The crates above use these functions, so they have the same form: a struct for those that are not measured would be a twin of each.
pub fn put_byte(out: &mut [u8], at: usize, b: u8) -> usize
    requires { at + 1 ≤ length out.old }
    ensures { Appended (b ∷ []) at out.old out.new result }
{
    out[at] = b;
    at + 1
}

// A number as two bytes, little-endian.
pub fn put16(out: &mut [u8], at: usize, v: usize) -> usize
    requires { (at + 2 ≤ length out.old) × (v < 65536) }
    ensures { Appended (two_bytes v) at out.old out.new result }
{
    put_text(&(v as u16).to_le_bytes(), out, at)
}

// All bytes of a text.
pub fn put_text(text: &[u8], out: &mut [u8], at: usize) -> usize
    requires { at + length text.now ≤ length out.old }
    ensures { Appended text.now at out.old out.new result }
{
    for (i, b) in text.iter().enumerate() {
        out[at + i] = *b;
    }
    at + text.len()
}

// What `made` makes of each item, at the front of `out`; behind it stays what stood there.
pub fn map_into<A: Copy, B: Copy, F: Fn(A) -> B>(items: &[A], out: &mut [B], made: F)
    requires { F.IsAlwaysCallable made × (length items.now ≤ length out.old) }
    ensures front { (of : A → B) → ((item : A) (b : B) → F.post made item b → b ≡ of item) → take (length items.now) out.new ≡ map of items.now }
    ensures rest { drop (length items.now) out.new ≡ drop (length items.now) out.old }
    ensures size { length out.new ≡ length out.old }
{
    for (i, item) in items.iter().enumerate() {
        out[i] = made(*item);
    }
}
