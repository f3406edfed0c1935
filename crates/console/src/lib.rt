// Standard input and output for the programs. A read that fails ends the input, and a write that fails is passed over.

#![tactic(auto)]

ghost use Rattle.std.specs.Prelude.{◌≤◌, length, take};
ghost use Rattle.std.specs.Io.KnownBytes.{Consumes};

use std::fmt::Display;
use std::io::{Read, Write};

// Puts bytes that have come at the front of the buffer, and returns how many: none at the end of the input.
pub fn read_some<R: Read>(input: &mut R, buf: &mut [u8]) -> usize
    ensures within { result ≤ length buf.new }
    ensures bytes { Consumes (R.remaining input.old) (R.remaining input.new) (take result buf.new) }
{
    input.read(buf).unwrap_or(0)
}

// Hands on what comes, piece by piece, up to the end of the input or to a piece for which `each` answers false.
// Nothing says that the input ends, so the turns are counted, up to a number that no run uses up; and nothing is ensured of what came, since that is for `each` to say,
// whose clauses are the caller's.
pub fn each_piece<R: Read, F: FnMut(&[u8]) -> bool>(input: &mut R, mut each: F)
    requires { F.IsAlwaysCallable each }
{
    let mut buf = [0u8; 65536];
    for _ in 0..u64::MAX {
        let n = read_some(input, &mut buf);
        if n == 0 || !each(&buf[..n]) {
            break;
        }
    }
}

// Writes all of the bytes. No clause says which were written: std says nothing of a write that fails.
pub fn write_all<W: Write>(out: &mut W, bytes: &[u8]) {
    let _ = out.write_all(bytes);
}

// Writes a text that is formatted, as `format_args!` makes it. No clause says which bytes were written, as of `write_all`.
pub fn print<W: Write, T: Display + Drop>(out: &mut W, text: T) {
    let _ = write!(out, "{text}");
}
