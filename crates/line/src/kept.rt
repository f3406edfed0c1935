// What is kept of an input, byte by byte: its first three lines, as far as they decide.
ghost use Rattle.std.specs.Prelude.{◌≡◌, ℕ, List, [], ◌++◌, ◌-◌, ◌≤◌, leb, length, take};
ghost use Rattle.fields.specs.Appended.{Appended};
ghost use Rattle.line.specs.Lines.{lines};
ghost use Rattle.line.specs.Sizes.{longest_report};
ghost use Rattle.line.specs.Input.{longer, next_row, no_input, Kept, fed, fed_all};

use super::write_lines;
use fields::put_text;
use std::marker::Model;
use tree::TREE_LIMIT;

// What decides of the three lines: one byte more than is admitted, and one letter more than there can be citations.
pub const STATUS_KEPT: usize = 4401;

pub const ANSWERS_KEPT: usize = 257;

pub const VALUE_KEPT: usize = 1025;

// The first bytes of a line, at most N.
#[derive(Drop)]
pub struct Line<const N: usize> {
    bytes: [u8; N],
    len: usize,
}

impl<const N: usize> Model for Line<N> {
    ghost Value = { List ℕ };

    ghost view = { λ l. take l.len l.bytes };

    ghost invariant = { λ l. l.len ≤ N };
}

impl<const N: usize> Line<N> {
    pub fn new() -> Self
        ensures { result ≡ [] }
    {
        Line {
            bytes: [0; N],
            len: 0,
        }
    }

    pub fn as_slice(&self) -> &[u8]
        ensures { result.now ≡ self.now }
    {
        &self.bytes[..self.len]
    }

    // No bytes.
    pub fn clear(&mut self)
        ensures { self.new ≡ [] }
    {
        self.len = 0;
    }

    // One byte more, unless the line is full.
    pub fn push(&mut self, b: u8)
        ensures { self.new ≡ longer N b self.old }
    {
        if self.len < N {
            self.bytes[self.len] = b;
            self.len += 1;
        }
    }

    // More bytes, the first of them as far as there is room.
    pub fn extend(&mut self, bytes: &[u8])
        ensures { self.new ≡ self.old ++ take (N - length self.old) bytes.now }
    {
        let part = text::head(bytes, N - self.len);
        self.len = put_text(part, &mut self.bytes, self.len);
    }
}

// The lines, and the number of the one that comes next, from 0 and at most 3: a count, as the definition `next_row` has it.
#[derive(Drop)]
pub struct Input {
    row: usize,
    status: Line<STATUS_KEPT>,
    answers: Line<ANSWERS_KEPT>,
    value: Line<VALUE_KEPT>,
}

impl Model for Input {
    ghost Value = { Kept };

    ghost view = { λ i. record { row = i.row; status = i.status; answers = i.answers; value = i.value } };
}

impl Input {
    pub fn new() -> Self
        ensures { result ≡ no_input }
    {
        Input {
            row: 0,
            status: Line::new(),
            answers: Line::new(),
            value: Line::new(),
        }
    }

    // No line, and no byte of one.
    pub fn clear(&mut self)
        ensures { self.new ≡ no_input }
    {
        self.row = 0;
        self.status.clear();
        self.answers.clear();
        self.value.clear();
    }

    // Whether the third line has ended.
    pub fn is_whole(&self) -> bool
        ensures { result ≡ leb 3 self.now.row }
    {
        3 <= self.row
    }

    // One byte more.
    pub fn feed(&mut self, b: u8)
        ensures { self.new ≡ fed b self.old }
    {
        if b == b'\n' {
            if self.row < 3 {
                self.row += 1;
            }
            return;
        }
        match self.row {
            0 => self.status.push(b),
            1 => self.answers.push(b),
            2 => self.value.push(b),
            _ => {}
        }
    }

    // So many bytes more.
    pub fn feed_all(&mut self, input: &[u8])
        ensures { self.new ≡ fed_all input.now self.old }
    {
        for b in input {
            self.feed(*b);
        }
    }

    // The lines for the three lines that are kept; the answer is their length.
    pub fn report(&self, out: &mut [u8]) -> usize
        requires { longest_report ≤ length out.old }
        ensures upper_bound { result ≤ length out.new }
        ensures appended { Appended (lines self.now.status self.now.answers self.now.value) 0 out.old out.new result }
    {
        let mut tree = [0u8; TREE_LIMIT];
        write_lines(
            self.status.as_slice(),
            self.answers.as_slice(),
            self.value.as_slice(),
            &mut tree,
            out,
        )
    }
}
