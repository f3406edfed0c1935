// Reads three lines from standard input, a status, answers and a value, and writes what they come to.
//
// A line feed ends a line and is no part of it. Of an input with fewer lines the others are empty.
// A carriage return is a byte like any other, so lines that end with one are refused by 16. What
// comes after the third line is not looked at.

#![tactic(auto)]

use line::{Input, LINES_SIZE};
use std::io::{Read, Write};

fn read_all<R: Read>(from: &mut R) -> Input {
    let mut input = Input::new();
    console::each_piece(from, |piece| {
        input.feed_all(piece);
        !input.is_whole()
    });
    input
}

fn answer<R: Read, W: Write>(from: &mut R, to: &mut W) {
    let mut out = [0u8; LINES_SIZE];
    let n = read_all(from).report(&mut out);
    console::write_all(to, &out[..n]);
}

fn main(rt: HostRuntime) {
    answer(&mut rt.stdin(), &mut rt.stdout());
}
