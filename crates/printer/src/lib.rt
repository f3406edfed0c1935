// Printing a tree, as `Display` writes it.

#![tactic(auto)]

ghost use Rattle.std.specs.Prelude.{◌≡◌, ◌+◌, ◌≤◌, ◌<◌, length};
ghost use Rattle.fields.specs.Appended.{Appended};
ghost use Rattle.grammar.specs.Print.{in_bytes, printed};
ghost use Rattle.grammar.specs.Bytes.{nodes, cites, tree_at};
ghost use Rattle.grammar.specs.Outcome.{answer_of, written_of, display_answer};
ghost use Rattle.tree.specs.Walk.{text_at};
ghost use Rattle.printer.specs.Parts.{separator_after, is_join, beside};

use fields::{put_byte, put_text};
use grammar::NodeKind;
use refusal::Refusal;
use tree::Tree;

// The longest print, in bytes.
pub const PRINT_LIMIT: usize = 4343;

// What stands between two operands of a node; nothing stands before the first, a fact of the place which the loop knows. Buffer and place are
// two parameters, as in crate fields, which says why.
fn put_separator(kind: NodeKind, first: bool, out: &mut [u8], at: usize) -> usize
    requires { at + length (separator_after first kind) ≤ length out.old }
    ensures { Appended (separator_after first kind) at out.old out.new result }
{
    if first {
        return at;
    }
    match kind {
        NodeKind::Citation => at,
        NodeKind::Then => put_byte(out, at, b' '),
        NodeKind::And => put_text(b" \xE2\x88\xA7 ", out, at),
        NodeKind::Or => put_text(b" \xE2\x88\xA8 ", out, at),
        NodeKind::Xor => put_text(b" \xE2\x8A\xBB ", out, at),
    }
}

// Whether an operand of this kind stands in parentheses.
fn is_join(kind: NodeKind) -> bool
    ensures { result ≡ is_join kind }
{
    matches!(kind, NodeKind::And | NodeKind::Or | NodeKind::Xor)
}

// A parenthesis beside an operand of a kind, if it stands in parentheses.
fn put_paren(kind: NodeKind, paren: u8, out: &mut [u8], at: usize) -> usize
    requires { at + length (beside paren kind) ≤ length out.old }
    ensures { Appended (beside paren kind) at out.old out.new result }
{
    if is_join(kind) {
        return put_byte(out, at, paren);
    }
    at
}

// A citation in its brackets.
fn put_cite(tree: Tree, number: usize, out: &mut [u8], at: usize) -> usize
    requires { (number < cites tree.bytes.now) × (at + (length (text_at tree.bytes.now number) + 2) ≤ length out.old) }
    ensures { Appended (in_bytes.word (text_at tree.entry.bytes.now number)) at out.old out.new result }
{
    let text = tree.text_at(number);
    let a = put_byte(out, at, b'[');
    let b = put_text(text, out, a);
    put_byte(out, b, b']')
}

// The tree at a row, by recursion: a child's subtree has fewer rows.
fn print_row(tree: Tree, row: usize, out: &mut [u8], at: usize) -> usize
    requires { (row < nodes tree.bytes.now) × (at + length (printed (tree_at tree.bytes.now row)) ≤ length out.old) }
    ensures { Appended (printed (tree_at tree.entry.bytes.now row)) at out.old out.new result }
{
    let kind = tree.kind_at(row);
    if kind == NodeKind::Citation {
        return put_cite(tree, tree.number_at(row), out, at);
    }
    let mut first = true;
    let mut w = at;
    for child in tree.children(row) {
        let inner = tree.kind_at(child);
        w = put_separator(kind, first, out, w);
        w = put_paren(inner, b'(', out, w);
        w = print_row(tree, child, out, w);
        w = put_paren(inner, b')', out, w);
        first = false;
    }
    w
}

// Writes the print into a scratch first, since the buffer may be too short for it.
fn display_apart(tree: Tree, out: &mut [u8]) -> Result<usize, Refusal>
    ensures result_value { result ≡ answer_of (display_answer tree.entry.bytes.now) (length out.old) }
    ensures out_after { out.new ≡ written_of (display_answer tree.entry.bytes.now) out.old }
{
    let mut scratch = [0u8; PRINT_LIMIT];
    let n = print_row(tree, 0, &mut scratch, 0);
    if out.len() < n {
        return Err(Refusal::NoRoom);
    }
    put_text(&scratch[..n], out, 0);
    Ok(n)
}

// Writes the print of a tree; 15, then 14. A print is no longer than its tree, so a buffer as long as the tree holds it.
pub fn display(tree: &[u8], out: &mut [u8]) -> Result<usize, Refusal>
    ensures result_value { result ≡ answer_of (display_answer tree.now) (length out.old) }
    ensures out_after { out.new ≡ written_of (display_answer tree.now) out.old }
{
    let tree = Tree::new(tree)?;
    if out.len() < tree.bytes.len() {
        return display_apart(tree, out);
    }
    Ok(print_row(tree, 0, out, 0))
}
