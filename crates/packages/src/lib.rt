// The bounds of a tree's Paket citations, as rows.

#![tactic(auto)]

ghost use Rattle.std.specs.Prelude.{◌≡◌, ◌+◌, ◌≤◌, ◌<◌, length};
ghost use Rattle.grammar.specs.Expr.{concat};
ghost use Rattle.grammar.specs.Bytes.{cites, texts_in};
ghost use Rattle.grammar.specs.Outcome.{answer_of, written_of};
ghost use Rattle.semantics.specs.Packages.{bytes_up_to, paket_bytes, read_row, row_of, rows_of};
ghost use Rattle.semantics.specs.Answers.{pakete_answer};
ghost use Rattle.fields.specs.Appended.{Appended};
ghost use Rattle.tree.specs.Walk.{text_at};

use citation::{ConditionKind, Paket};
use fields::{put_byte, put_text, put16};
use refusal::Refusal;
use tree::Tree;

// The bytes of a package row.
pub const PAKET_SIZE: usize = 19;

// The bounds that the citation `n` names; refused if its kind is no Paket, or if it is unreadable.
fn paket_at(tree: Tree, n: usize) -> Result<Paket, Refusal>
    requires { n < cites tree.bytes.now }
    ensures { read_row n result ≡ row_of n (text_at tree.entry.bytes.now n) }
{
    let text = tree.text_at(n);
    if ConditionKind::of_text(text) != ConditionKind::Paket {
        return Err(Refusal::NotAPaket);
    }
    Paket::of_text(text)
}

// The rows of the citation `n`: one or none.
fn rows_at(tree: Tree, n: usize) -> usize
    requires { n < cites tree.bytes.now }
    ensures { (result ≡ length (row_of n (text_at tree.entry.bytes.now n))) × (result ≤ 1) }
{
    usize::from(paket_at(tree, n).is_ok())
}

// How many rows the tree has.
fn count_rows(tree: Tree) -> usize
    ensures { (result ≡ length (rows_of 0 (texts_in tree.entry.bytes.now))) × (result ≤ 256) }
{
    let mut rows = 0;
    for n in 0..tree.cite_count() {
        rows += rows_at(tree, n);
    }
    rows
}

// A number as eight bytes, little-endian; the answer is the place after them, here and below. Buffer and place are two parameters, as in crate fields, which says why.
fn put64(out: &mut [u8], at: usize, v: u64) -> usize
    requires { at + 8 ≤ length out.old }
    ensures { Appended (bytes_up_to 8 v) at out.old out.new result }
{
    put_text(&v.to_le_bytes(), out, at)
}

// The row of the citation `n`.
fn put_row(out: &mut [u8], at: usize, n: usize, p: Paket) -> usize
    requires { (at + 19 ≤ length out.old) × (n < 65536) }
    ensures { Appended (paket_bytes n p) at out.old out.new result }
{
    let mut w = put16(out, at, n);
    w = put64(out, w, p.low);
    w = put_byte(out, w, u8::from(p.high.is_some()));
    put64(out, w, p.high.unwrap_or(0))
}

// The row of the citation `n`, if it has one.
fn put_at(tree: Tree, n: usize, out: &mut [u8], at: usize) -> usize
    requires { (n < cites tree.bytes.now) × (n < 65536) × (at + length (concat (row_of n (text_at tree.bytes.now n))) ≤ length out.old) }
    ensures { Appended (concat (row_of n (text_at tree.entry.bytes.now n))) at out.old out.new result }
{
    match paket_at(tree, n) {
        Ok(p) => put_row(out, at, n, p),
        Err(_) => at,
    }
}

// All rows of the tree.
fn put_rows(tree: Tree, out: &mut [u8]) -> usize
    requires { length (concat (rows_of 0 (texts_in tree.bytes.now))) ≤ length out.old }
    ensures { Appended (concat (rows_of 0 (texts_in tree.entry.bytes.now))) 0 out.old out.new result }
{
    let mut w = 0;
    for n in 0..tree.cite_count() {
        w = put_at(tree, n, out, w);
    }
    w
}

// The package rows of a tree.
pub fn pakete(tree: &[u8], out: &mut [u8]) -> Result<usize, Refusal>
    ensures result_value { result ≡ answer_of (pakete_answer tree.now) (length out.old) }
    ensures out_after { out.new ≡ written_of (pakete_answer tree.now) out.old }
{
    let tree = Tree::new(tree)?;
    let rows = count_rows(tree);
    if out.len() < PAKET_SIZE * rows {
        return Err(Refusal::NoRoom);
    }
    put_rows(tree, out);
    Ok(rows)
}
