// The tree as bytes: whether a byte string is one (refusal 15), what stands in its rows, and its citations' texts. Callers hold a
// tree as bytes in memory of their own, without a heap, so a node is a row's number.

#![tactic(auto)]

ghost use Rattle.std.specs.Prelude.{◌≡◌, true, false, ◌+◌, ◌*◌, ◌-◌, ◌≤◌, ◌<◌, MatchOption, length, drop};
ghost use Rattle.grammar.specs.Citable.{citable};
ghost use Rattle.grammar.specs.Rows.{many, span, firsts};
ghost use Rattle.grammar.specs.Bytes.{head_size, row_size, cite_size, nodes, cites, texts_at, row_at, rows_from, head_ok, tiles, row_ok, counted, rows_ok, cites_ok, is_tree, forest_at, tree_at};
ghost use Rattle.grammar.specs.Kinds.{node_kind};
ghost use Rattle.grammar.specs.declared.NodeKind.TheVariants.{Citation};
ghost use Rattle.std.specs.Result.{MatchResult};
ghost use Rattle.std.specs.Iterator.{at_most};
ghost use Rattle.refusal.specs.declared.Refusal.TheVariants.{NotATree};
ghost use Rattle.tree.specs.Walk.{row_from, cite_from, number_at, text_at, text_from, text_size};
ghost use Rattle.tree.specs.Cited.{cited_answer};
ghost use Rattle.tree.specs.Plain.{is_plain, all_plain, PlainIf};

use fields::get16;
use grammar::NodeKind;
pub use grammar::{CITATION_LIMIT, CITED_LIMIT};
use refusal::Refusal;
use text::between;
use utf8::{Walker, is_white};

// The bytes of the header, of a node row and of a citation row.
pub const HEAD_SIZE: usize = 12;

pub const ROW_SIZE: usize = 6;

pub const CITE_SIZE: usize = 4;

// The most nodes, and the most bytes of a tree.
pub const NODE_LIMIT: usize = 511;

pub const TREE_LIMIT: usize = 6150;

// The header is that of its counts and of the length.
fn head_ok(tree: &[u8]) -> bool
    ensures { result ≡ head_ok tree.now }
{
    if tree.len() < HEAD_SIZE {
        return false;
    }
    let n = get16(tree, 0);
    let c = get16(tree, 2);
    if get16(tree, 4) != HEAD_SIZE {
        return false;
    }
    if get16(tree, 6) != HEAD_SIZE + ROW_SIZE * n {
        return false;
    }
    if get16(tree, 8) != HEAD_SIZE + ROW_SIZE * n + CITE_SIZE * c {
        return false;
    }
    if get16(tree, 10) != tree.len() {
        return false;
    }
    if CITATION_LIMIT < c {
        return false;
    }
    if tree.len() < HEAD_SIZE + ROW_SIZE * n + CITE_SIZE * c {
        return false;
    }
    tree.len() <= HEAD_SIZE + ROW_SIZE * n + CITE_SIZE * c + CITED_LIMIT
}

// `m` subtrees, walked by their sizes, take up `z` of the `left` rows from the byte `at` on.
fn tiles_at(tree: &[u8], m: usize, z: usize, left: usize, at: usize) -> bool
    requires { (z ≤ left) × (at + row_size * left ≤ length tree.now) }
    ensures { result ≡ tiles m z (rows_from tree.now left at) }
{
    let mut size = z;
    let mut p = at;
    for _ in 0..m {
        if size == 0 {
            return false;
        }
        let y = get16(tree, p + 4);
        if y == 0 {
            return false;
        }
        if size < y {
            return false;
        }
        size -= y;
        p += ROW_SIZE * y;
    }
    size == 0
}

// The row at the byte `at`, the first of `left`, fits; `n` citations stand before it.
fn row_ok(tree: &[u8], left: usize, at: usize, n: usize) -> bool
    requires { (0 < left) × (at + row_size * left ≤ length tree.now) }
    ensures { result ≡ row_ok n (row_at tree.now at) (rows_from tree.now (left - 1) (at + row_size)) }
{
    // Numbers, and no kinds: the bytes are only tested here, and some number may be that of none.
    let k = get16(tree, at);
    let m = get16(tree, at + 2);
    let z = get16(tree, at + 4);
    if k == 0 {
        return m == n && z == 1;
    }
    if 4 < k {
        return false;
    }
    if m < 2 {
        return false;
    }
    if z == 0 {
        return false;
    }
    if left < z {
        return false;
    }
    tiles_at(tree, m, z - 1, left - 1, at + ROW_SIZE)
}

// The citations up to the row at the byte `at`, `n` being before it: by the number of its kind, which is not tested yet.
fn count_row(tree: &[u8], at: usize, n: usize) -> usize
    requires { (at + 5 < length tree.now) × (n < 65536) }
    ensures { (result ≡ counted n (row_at tree.now at)) × (result ≤ n + 1) }
{
    n + usize::from(get16(tree, at) == 0)
}

// Each row fits, and the citations are numbered in order.
fn rows_ok(tree: &[u8], n: usize, c: usize) -> bool
    requires { (head_size + row_size * n ≤ length tree.now) × (n < 65536) }
    ensures { result ≡ rows_ok 0 c (rows_from tree.now n head_size) }
{
    let mut before = 0;
    for i in 0..n {
        let at = HEAD_SIZE + ROW_SIZE * i;
        if !row_ok(tree, n - i, at, before) {
            return false;
        }
        before = count_row(tree, at, before);
    }
    before == c
}

// A citation's text: UTF-8, not blank, without `]`.
fn is_citable(text: &[u8]) -> bool
    ensures { result ≡ citable text.now }
{
    let mut blank = true;
    for (_, code) in Walker::new(text, 0) {
        let Some(code) = code else {
            return false;
        };
        if code == 0x5D {
            return false;
        }
        blank = blank && is_white(code);
    }
    !blank
}

// A byte of visible ASCII other than `]`.
fn is_plain(b: u8) -> bool
    ensures { result ≡ is_plain b }
{
    b.is_ascii_graphic() && b != 0x5D
}

// Whether every byte is plain. All are looked at: a loop with one way out is compiled to many bytes a turn; `all` has two.
fn all_plain(s: &[u8]) -> bool
    ensures { result ≡ all_plain s.now }
{
    let mut plain = true;
    for b in s {
        plain &= is_plain(*b);
    }
    plain
}

// A citation's text, as `is_citable`; if `plain`, its bytes are known to be plain, a fact that is found once for all texts.
fn text_ok(text: &[u8], plain: bool) -> bool
    requires { PlainIf plain text.now }
    ensures { result ≡ citable text.now }
{
    if plain {
        !text.is_empty()
    } else {
        is_citable(text)
    }
}

// `c` citation rows from the byte `from` on are those of citable texts from the byte `base` to the end; if `plain`, those bytes are known to be plain.
fn cites_ok(tree: &[u8], base: usize, c: usize, from: usize, plain: bool) -> bool
    requires { (base ≡ texts_at tree.now) × (from + cite_size * c ≤ length tree.now) × (base ≤ length tree.now) × PlainIf plain (drop base tree.now) }
    ensures { result ≡ cites_ok tree.now c from base }
{
    let mut p = base;
    for i in 0..c {
        let at = from + CITE_SIZE * i;
        let o = get16(tree, at);
        let n = get16(tree, at + 2);
        if base + o != p {
            return false;
        }
        if tree.len() - p < n {
            return false;
        }
        let e = p + n;
        if !text_ok(&tree[p..e], plain) {
            return false;
        }
        p = e;
    }
    p == tree.len()
}

// The bytes are a tree.
pub fn is_tree(tree: &[u8]) -> bool
    ensures { result ≡ is_tree tree.now }
{
    if !head_ok(tree) {
        return false;
    }
    let n = get16(tree, 0);
    let c = get16(tree, 2);
    if !tiles_at(tree, 1, n, n, HEAD_SIZE) {
        return false;
    }
    if !rows_ok(tree, n, c) {
        return false;
    }
    let base = HEAD_SIZE + ROW_SIZE * n + CITE_SIZE * c;
    let plain = all_plain(&tree[base..]);
    cites_ok(tree, base, c, HEAD_SIZE + ROW_SIZE * n, plain)
}

// Bytes that are a tree.
#[derive(Clone, Copy)]
pub struct Tree<'a> {
    pub bytes: &'a [u8],
    ghost tested: { is_tree bytes.now ≡ true },
}

impl<'a> Tree<'a> {
    // The tree that the bytes are; 15 if they are none.
    pub fn new(bytes: &'a [u8]) -> Result<Self, Refusal>
        ensures { MatchResult result (λ tree. tree.bytes.now ≡ bytes.entry.now) (λ why. (why ≡ NotATree) × (is_tree bytes.entry.now ≡ false)) }
    {
        if !is_tree(bytes) {
            return Err(Refusal::NotATree);
        }
        Ok(Tree { bytes })
    }

    // How many node rows it has.
    pub fn node_count(self) -> usize
        ensures { (result ≡ nodes self.entry.bytes.now) × (result < 65536) }
    {
        get16(self.bytes, 0)
    }

    // How many citations it has.
    pub fn cite_count(self) -> usize
        ensures { (result ≡ cites self.entry.bytes.now) × (result ≤ 256) }
    {
        get16(self.bytes, 2)
    }

    // The byte at which a row begins.
    // A row is a number with a bound, as a slice's index is, here and in the crates above: presence keeps its marks by row, and goes over all rows by number, so a handle of tree
    // and row would be taken apart there. The same of a citation's number.
    fn row_from(self, row: usize) -> usize
        requires { row < nodes self.bytes.now }
        ensures { (result ≡ row_from row) × (result + row_size ≤ length self.entry.bytes.now) }
    {
        HEAD_SIZE + ROW_SIZE * row
    }

    // The byte at which a citation's row begins.
    fn cite_from(self, number: usize) -> usize
        requires { number < cites self.bytes.now }
        ensures { (result ≡ cite_from self.entry.bytes.now number) × (result + cite_size ≤ length self.entry.bytes.now) }
    {
        HEAD_SIZE + ROW_SIZE * self.node_count() + CITE_SIZE * number
    }

    // The kind of the node at a row.
    pub fn kind_at(self, row: usize) -> NodeKind
        requires { row < nodes self.bytes.now }
        ensures { result ≡ node_kind (tree_at self.entry.bytes.now row) }
    {
        NodeKind::from(get16(self.bytes, self.row_from(row)))
    }

    // The number in a row: of children, or the citation's number.
    pub fn number_at(self, row: usize) -> usize
        requires { row < nodes self.bytes.now }
        ensures { (result ≡ number_at self.entry.bytes.now row) × (result < 65536) }
    {
        get16(self.bytes, self.row_from(row) + 2)
    }

    // The rows in the subtree at a row.
    pub fn size_at(self, row: usize) -> usize
        requires { row < nodes self.bytes.now }
        ensures { (result ≡ span (tree_at self.entry.bytes.now row)) × (result < 65536) }
    {
        get16(self.bytes, self.row_from(row) + 4)
    }

    // The rows of the children of the node at a row.
    pub fn children(self, row: usize) -> Children<'a>
        requires { (row < nodes self.bytes.now) × ¬ (node_kind (tree_at self.bytes.now row) ≡ Citation) }
        ensures { (result.tree.bytes.now ≡ self.entry.bytes.now) × (result.row ≡ row + 1) × (result.left ≡ number_at self.entry.bytes.now row) }
    {
        Children {
            tree: self,
            row: row + 1,
            left: self.number_at(row),
        }
    }

    // The byte at which a citation's text begins.
    pub fn text_start(self, number: usize) -> usize
        requires { number < cites self.bytes.now }
        ensures { (result ≡ text_from self.entry.bytes.now number) × (result ≤ length self.entry.bytes.now) }
    {
        let base = HEAD_SIZE + ROW_SIZE * self.node_count() + CITE_SIZE * self.cite_count();
        base + get16(self.bytes, self.cite_from(number))
    }

    // The length of a citation's text.
    pub fn text_size(self, number: usize) -> usize
        requires { number < cites self.bytes.now }
        ensures { (result ≡ text_size self.entry.bytes.now number) × (result < 65536) }
    {
        get16(self.bytes, self.cite_from(number) + 2)
    }

    // A citation's text.
    pub fn text_at(self, number: usize) -> &'a [u8]
        requires { number < cites self.bytes.now }
        ensures { result.now ≡ text_at self.entry.bytes.now number }
    {
        between(self.bytes, self.text_start(number), self.text_size(number))
    }
}

// The rows of a node's children from `row` on, `left` of them.
#[derive(Drop)]
pub struct Children<'a> {
    pub tree: Tree<'a>,
    pub row: usize,
    pub left: usize,
    ghost within: { row ≤ nodes tree.bytes.now },
    ghost counted: { many (firsts left (forest_at tree.bytes.now row)) ≡ left },
}

impl<'a> Iterator for Children<'a> {
    type Item = usize;

    // The next child's row, and then the rows after its subtree are left; nothing if none is left, and then all stays.
    ghost next_gives = { λ old given new. MatchOption given ((old.left ≡ 0) × (new.tree.bytes.now ≡ old.tree.bytes.now) × (new.row ≡ old.row) × (new.left ≡ old.left)) (λ child. (child ≡ old.row) × (0 < old.left) × (new.tree.bytes.now ≡ old.tree.bytes.now) × (new.row ≡ child + span (tree_at old.tree.bytes.now child)) × (new.left ≡ old.left - 1)) };

    ghost remaining = { λ c. at_most c.left };

    fn next(&mut self) -> Option<usize> {
        if self.left == 0 {
            return None;
        }
        let child = self.row;
        *self = Children {
            tree: self.tree,
            row: child + self.tree.size_at(child),
            left: self.left - 1,
        };
        Some(child)
    }
}

// Where the text of a citation stands: two numbers, as the definition has them, since the bytes are the caller's.
pub fn cited(tree: &[u8], number: usize) -> Result<Option<(usize, usize)>, Refusal>
    ensures { result ≡ cited_answer tree.now number }
{
    let tree = Tree::new(tree)?;
    if tree.cite_count() <= number {
        return Ok(None);
    }
    Ok(Some((tree.text_start(number), tree.text_size(number))))
}
