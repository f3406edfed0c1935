// Answers the requests on standard input, a line each, with a line each on standard output.
//
// A request is a word and its fields, each after exactly one space. A field is a byte string in
// lower-case hex, or `-` for an empty one.
//
//     kind TEXT               0 to 6: Voraussetzung, Hinweis, Format, Wiederholbarkeit, Zeitpunkt,
//                             Paket, Other
//     paket TEXT              ok LOW MARK HIGH, in decimal; HIGH is 0 where MARK is 0, unbounded
//     name TEXT               ok NAME, the Paket's digits and `P`
//     evaluate TEXT VALUE     H, V or U: Holds, Violated, Unregistered
//     registered TEXT         0 or 1
//     expr TEXT BUF           ok LENGTH BUF', the tree in the buffer
//     status TEXT BUF         ok CODE LENGTH BUF', LENGTH `none` for a word alone
//     tree TREE               ok
//     print TREE BUF          ok LENGTH BUF', the print in the buffer
//     eval TREE ANSWERS       0 to 3: False, Unknown, True, Neutral
//     pakete TREE BUF         ok ROWS BUF', the package rows in the buffer
//     verdicts TREE VALUE BUF ok TRUTH COUNT BUF', TRUTH 0 to 2, the citation numbers in the buffer
//     cited TREE              the texts, joined by `,`
//
// BUF is what a lent buffer holds before the call, BUF' after it; a refusal shows it too, `refused N BUF'`.
//
// Each may be answered `refused N`. A line that is no request, an empty one among them, and a line
// of more than 65,536 bytes are answered `bad request`. A line ends before its line feed, and a
// last line needs none. Answers are written once the input that has come is used up, so a program
// may wait for each.
//
// Proved of this program: it is safe and ends, every function that it calls is called as its contract asks, and those meet
// their contracts. Run and not proved: which bytes a line is answered with. They are held to the stored list, and compared
// with the Rust original.

#![tactic(auto)]

use answers::Answers;
use line::Line;
use requests::{Fields, respond};
use std::io::{Read, Write};

mod answers;
mod field;
mod requests;

// The longest line.
const LINE: usize = 65536;

// The bytes that a field of a line can hold.
const BYTES: usize = 32768;

// The longest answer, some words and the digits of the longest field.
const ROOM: usize = 65600;

// The longest line, and one byte by which a longer one is told.
const HELD: usize = 65537;

// The output has room for two answers.
const OUT: usize = 131200;

// What is held between two reads: the present line, room for its fields, and the answers that wait to be written.
#[derive(Drop)]
struct Exchange {
    line: Line<HELD>,
    fields: Fields,
    answers: Answers,
}

impl Exchange {
    fn new() -> Exchange {
        Exchange {
            line: Line::new(),
            fields: Fields::new(),
            answers: Answers::new(),
        }
    }

    // Answers the line that ends with these bytes; what is held stands in front of them. Most lines come whole, and those are not copied.
    fn end_line<W: Write>(&mut self, rest: &[u8], to: &mut W) {
        if self.line.as_slice().is_empty() {
            respond(rest, &mut self.fields, &mut self.answers);
        } else {
            self.line.extend(rest);
            respond(self.line.as_slice(), &mut self.fields, &mut self.answers);
            self.line.clear();
        }
        self.answers.end_line(to);
    }

    // So many bytes more, and the answers to the lines that they end. Of a line that is too long the first bytes are held.
    fn feed_all<W: Write>(&mut self, input: &[u8], to: &mut W) {
        let mut parts = input.split(|b| *b == b'\n');
        let mut last: &[u8] = parts.next().unwrap_or(&[]);
        for part in parts {
            self.end_line(last, to);
            last = part;
        }
        self.line.extend(last);
        self.answers.flush(to);
    }

    // The end of the input ends its last line too.
    fn end<W: Write>(&mut self, to: &mut W) {
        if !self.line.as_slice().is_empty() {
            self.end_line(&[], to);
            self.answers.flush(to);
        }
    }
}

fn answer_all<R: Read, W: Write>(from: &mut R, to: &mut W) {
    let mut exchange = Exchange::new();
    console::each_piece(from, |piece| {
        exchange.feed_all(piece, to);
        true
    });
    exchange.end(to);
}

fn main(rt: HostRuntime) {
    answer_all(&mut rt.stdin(), &mut rt.stdout());
}
