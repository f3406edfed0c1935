// Writing a tree as bytes: header, node rows, citation rows, texts.

#![tactic(auto)]

ghost use Rattle.std.specs.Prelude.{◌≡◌, [], ◌∷◌, ◌+◌, ◌*◌, ◌≤◌, ◌<◌, length, map};
ghost use Rattle.fields.specs.Appended.{Appended};
ghost use Rattle.grammar.specs.Expr.{concat};
ghost use Rattle.grammar.specs.Bytes.{head_size, row_size, cite_size, texts_from, head_bytes, row_bytes, cite_bytes, packed};
ghost use Rattle.lexer.specs.Tokens.{cut, cuts};
ghost use Rattle.grammar.specs.Rows as grammar_rows;
ghost use Rattle.writer.specs.Unpacked.{row_of, numbered_row};

use fields::{put_text, put16};
use lexer::Place;
use parser::Row;
use text::between;
use tree::{CITE_SIZE, HEAD_SIZE, ROW_SIZE};

// The bytes at a place, as far as the text goes.
fn cut_at(text: &[u8], place: Place) -> &[u8]
    ensures { result.now ≡ cut text.now place }
{
    between(text, place.from as usize, place.size as usize)
}

// What a tree's row is written from.
pub trait TreeRow: Copy {
    // The row that it stands for.
    ghost stands_for: { Self → grammar_rows.Row };

    // The number of its kind, its number, and the rows in its subtree.
    fn numbers(self) -> (u16, u16, u16)
        ensures { numbered_row result ≡ stands_for self };
}

impl TreeRow for Row {
    ghost stands_for = { row_of };

    fn numbers(self) -> (u16, u16, u16) {
        (usize::from(self.kind) as u16, self.number, self.size)
    }
}

// For callers who hold rows as numbers, whatever kind the first one is.
impl TreeRow for (u16, u16, u16) {
    ghost stands_for = { numbered_row };

    fn numbers(self) -> (u16, u16, u16) {
        self
    }
}

// The header of `n` nodes, `c` citations and `t` bytes of texts. Buffer and place are two parameters, here and below, as in crate fields, which says why.
fn put_head(n: usize, c: usize, t: usize, out: &mut [u8]) -> usize
    requires { (head_size ≤ length out.old) × (texts_from n c + t < 65536) }
    ensures { Appended (head_bytes n c t) 0 out.old out.new result }
{
    let mut w = put16(out, 0, n);
    w = put16(out, w, c);
    w = put16(out, w, HEAD_SIZE);
    w = put16(out, w, HEAD_SIZE + ROW_SIZE * n);
    w = put16(out, w, HEAD_SIZE + ROW_SIZE * n + CITE_SIZE * c);
    put16(out, w, HEAD_SIZE + ROW_SIZE * n + CITE_SIZE * c + t)
}

// One row.
fn put_row<R: TreeRow>(row: R, out: &mut [u8], at: usize) -> usize
    requires { at + row_size ≤ length out.old }
    ensures { Appended (row_bytes (R.stands_for row ∷ [])) at out.old out.new result }
{
    let (kind, number, size) = row.numbers();
    let a = put16(out, at, usize::from(kind));
    let b = put16(out, a, usize::from(number));
    put16(out, b, usize::from(size))
}

// All rows.
fn put_rows<R: TreeRow>(rows: &[R], out: &mut [u8], at: usize) -> usize
    requires { at + row_size * length rows.now ≤ length out.old }
    ensures { Appended (row_bytes (map R.stands_for rows.now)) at out.old out.new result }
{
    let mut w = at;
    for &row in rows {
        w = put_row(row, out, w);
    }
    w
}

// The citation rows of the texts at places. Text and places are two parameters: both are lent, one is read whole and the other a place at a time.
fn put_cites(text: &[u8], places: &[Place], out: &mut [u8], at: usize) -> usize
    requires { (at + cite_size * length places.now ≤ length out.old) × (length (concat (cuts text.now places.now)) < 65536) }
    ensures { Appended (cite_bytes 0 (cuts text.now places.now)) at out.old out.new result }
{
    let mut o = 0;
    let mut w = at;
    for &place in places {
        let size = cut_at(text, place).len();
        w = put16(out, w, o);
        w = put16(out, w, size);
        o += size;
    }
    w
}

// The texts at places.
fn put_texts(text: &[u8], places: &[Place], out: &mut [u8], at: usize) -> usize
    requires { at + length (concat (cuts text.now places.now)) ≤ length out.old }
    ensures { Appended (concat (cuts text.now places.now)) at out.old out.new result }
{
    let mut w = at;
    for &place in places {
        w = put_text(cut_at(text, place), out, w);
    }
    w
}

// The tree of rows, which cite the texts at places, so many bytes together; its length.
pub fn write_tree<R: TreeRow>(
    rows: &[R],
    text: &[u8],
    places: &[Place],
    bytes: usize,
    out: &mut [u8],
) -> usize
    requires { (bytes ≡ length (concat (cuts text.now places.now))) × (texts_from (length rows.now) (length places.now) + bytes < 65536) × (texts_from (length rows.now) (length places.now) + bytes ≤ length out.old) }
    ensures { Appended (packed (map R.stands_for rows.now) (cuts text.now places.now)) 0 out.old out.new result }
{
    let mut w = put_head(rows.len(), places.len(), bytes, out);
    w = put_rows(rows, out, w);
    w = put_cites(text, places, out, w);
    put_texts(text, places, out, w)
}
