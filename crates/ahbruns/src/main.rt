// Many runs of ahbline in one input, separated by one byte 00: for each run its report, and then a line `--`.
//
// A run is three lines, a status, answers and a value, as ahbline reads them. Bytes after the third
// line of a run are not looked at. Of the refusals four cannot arise: 6, since a word alone is
// accepted; 14, since the buffers are long enough; 15, since the tree was read; 17, since unreadable
// packages are skipped.

#![tactic(auto)]

use line::{Input, LINES_SIZE};
use std::io::{Read, Write};

// Writes the report of a run into a buffer, which is lent so that it is not cleared for each run, and from there; then the next run begins.
fn end_run<W: Write>(input: &mut Input, out: &mut [u8; LINES_SIZE], to: &mut W) {
    let n = input.report(out);
    console::write_all(to, &out[..n]);
    console::write_all(to, b"--\n");
    input.clear();
}

// So many bytes more, and the reports of the runs that they end.
fn feed_all<W: Write>(input: &mut Input, bytes: &[u8], out: &mut [u8; LINES_SIZE], to: &mut W) {
    for b in bytes {
        if *b == 0 {
            end_run(input, out, to);
        } else {
            input.feed(*b);
        }
    }
}

fn answer_all<R: Read, W: Write>(from: &mut R, to: &mut W) {
    let mut input = Input::new();
    let mut out = [0u8; LINES_SIZE];
    console::each_piece(from, |piece| {
        feed_all(&mut input, piece, &mut out, to);
        true
    });
    end_run(&mut input, &mut out, to);
}

fn main(rt: HostRuntime) {
    answer_all(&mut rt.stdin(), &mut rt.stdout());
}
