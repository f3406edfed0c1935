// Reading a text, and a status, as the bytes of a tree.

#![tactic(auto)]

ghost use Rattle.std.specs.Prelude.{◌≡◌, true, ◌+◌, ◌≤◌, length, drop, IfOk};
ghost use Rattle.utf8.specs.Utf8.{is_utf8, decode};
ghost use Rattle.utf8.specs.Limits.{text_limit};
ghost use Rattle.grammar.specs.Reading.{expression, citation_limit, node_limit};
ghost use Rattle.grammar.specs.Status.{words, after_word, of_words};
ghost use Rattle.grammar.specs.Outcome.{answer_of, written_of, parse_answer, status_answer};
ghost use Rattle.reader.specs.Said.{tree_outcome, status_outcome};
ghost use Rattle.reader.specs.Made.{Room, Made};

use grammar::NodeKind;
use lexer::{Lexed, Place, Text, TokenKind};
use parser::Row;
use refusal::Refusal;
use status::StatusKind;
use tree::{CITATION_LIMIT, CITE_SIZE, HEAD_SIZE, NODE_LIMIT, ROW_SIZE};
use utf8::TEXT_LIMIT;

// Texts of so many bytes are read in a scratch that is small: they have no more tokens, and fewer than twice as many nodes.
const SHORT: usize = 32;

const SHORT_NODES: usize = 63;

const MEDIUM: usize = 128;

const MEDIUM_NODES: usize = 255;

// What stands in a scratch before a place or a row is written there.
const NO_PLACE: Place = Place { from: 0, size: 0 };

const NO_ROW: Row = Row {
    kind: NodeKind::Citation,
    number: 0,
    size: 0,
};

// The counts of node rows, of citations and of the bytes in them.
#[derive(Clone, Copy)]
struct Sizes {
    nodes: usize,
    cites: usize,
    bytes: usize,
}

#[derive(Clone, Copy)]
pub struct Expr {}

#[derive(Clone, Copy)]
pub struct Status {}

// Room for what stands between a text and its tree: so many tokens, citations and nodes.
#[derive(Drop)]
struct Scratch<const TOKENS: usize, const CITES: usize, const NODES: usize> {
    kinds: [TokenKind; TOKENS],
    places: [Place; CITES],
    work: [Row; NODES],
    rows: [Row; NODES],
}

impl<const TOKENS: usize, const CITES: usize, const NODES: usize> Scratch<TOKENS, CITES, NODES> {
    fn new() -> Self {
        Scratch {
            kinds: [TokenKind::Citation; TOKENS],
            places: [NO_PLACE; CITES],
            work: [NO_ROW; NODES],
            rows: [NO_ROW; NODES],
        }
    }

    // The node rows of a text, and the places of its citations. That the text fits stands in clauses, here and below: the sizes are const parameters, of which Rattle computes none from another,
    // and a scratch that held the text would say in as many clauses that the text stays.
    fn make(&mut self, text: Text) -> Result<Sizes, Refusal>
        requires { Room (length text.bytes.now) TOKENS CITES NODES NODES }
        ensures made { Made text.entry.bytes.now self.new.places self.new.rows result }
        ensures within { IfOk result (λ sizes. (sizes.nodes ≤ NODES) × (sizes.cites ≤ CITES)) }
    {
        let Lexed {
            tokens,
            cites,
            bytes,
        } = lexer::lex(text, &mut self.kinds, &mut self.places)?;
        let nodes = parser::parse_tokens(&self.kinds[..tokens], &mut self.work, &mut self.rows)?;
        Ok(Sizes {
            nodes,
            cites,
            bytes,
        })
    }

    // Writes the tree of a text that was admitted, if there is room.
    fn read(&mut self, text: Text, out: &mut [u8]) -> Result<usize, Refusal>
        requires { Room (length text.bytes.now) TOKENS CITES NODES NODES × (CITES ≤ citation_limit) × (NODES ≤ node_limit) }
        ensures result_value { result ≡ answer_of (tree_outcome (expression (decode text.entry.bytes.now))) (length out.old) }
        ensures out_after { out.new ≡ written_of (tree_outcome (expression (decode text.entry.bytes.now))) out.old }
    {
        let Sizes {
            nodes,
            cites,
            bytes,
        } = self.make(text)?;
        let length = HEAD_SIZE + ROW_SIZE * nodes + CITE_SIZE * cites + bytes;
        if out.len() < length {
            return Err(Refusal::NoRoom);
        }
        Ok(writer::write_tree(
            &self.rows[..nodes],
            text.bytes,
            &self.places[..cites],
            bytes,
            out,
        ))
    }
}

// The same in a scratch of its own.
fn read_in<const TOKENS: usize, const CITES: usize, const NODES: usize>(
    text: Text,
    out: &mut [u8],
) -> Result<usize, Refusal>
    requires { Room (length text.bytes.now) TOKENS CITES NODES NODES × (CITES ≤ citation_limit) × (NODES ≤ node_limit) }
    ensures result_value { result ≡ answer_of (tree_outcome (expression (decode text.entry.bytes.now))) (length out.old) }
    ensures out_after { out.new ≡ written_of (tree_outcome (expression (decode text.entry.bytes.now))) out.old }
{
    Scratch::<TOKENS, CITES, NODES>::new().read(text, out)
}

// In a scratch by the length of the text, since clearing a large one costs more than a short text.
fn read_text(text: Text, out: &mut [u8]) -> Result<usize, Refusal>
    ensures result_value { result ≡ answer_of (tree_outcome (expression (decode text.entry.bytes.now))) (length out.old) }
    ensures out_after { out.new ≡ written_of (tree_outcome (expression (decode text.entry.bytes.now))) out.old }
{
    if text.bytes.len() <= SHORT {
        return read_in::<SHORT, SHORT, SHORT_NODES>(text, out);
    }
    if text.bytes.len() <= MEDIUM {
        return read_in::<MEDIUM, MEDIUM, MEDIUM_NODES>(text, out);
    }
    read_in::<TEXT_LIMIT, CITATION_LIMIT, NODE_LIMIT>(text, out)
}

impl Expr {
    // Writes the tree that a text reads as: 10, 11, the leftmost of 1, 2, 3, then 6, 12, 13, the first met of 4 and 5, and 14.
    pub fn parse(text: &[u8], out: &mut [u8]) -> Result<usize, Refusal>
        ensures result_value { result ≡ answer_of (parse_answer text.now) (length out.old) }
        ensures out_after { out.new ≡ written_of (parse_answer text.now) out.old }
    {
        let text = Text::admit(text)?;
        read_text(text, out)
    }
}

// What follows a status word: the words from `from` on, joined in the scratch, and read.
fn after_word(
    kind: StatusKind,
    text: &[u8],
    from: usize,
    joined: &mut [u8],
    out: &mut [u8],
) -> Result<(StatusKind, Option<usize>), Refusal>
    requires { (from ≤ length text.now) × (length text.now ≤ length joined.old) × (length joined.old ≤ text_limit) × (is_utf8 (drop from text.now) ≡ true) }
    ensures result_value { result ≡ answer_of (status_outcome (after_word kind (words (decode (drop from text.now))))) (length out.old) }
    ensures out_after { out.new ≡ written_of (status_outcome (after_word kind (words (decode (drop from text.now))))) out.old }
{
    let n = lexer::join_words(text, from, joined);
    if n == 0 {
        return Ok((kind, None));
    }
    let length = read_text(
        Text {
            bytes: &joined[..n],
        },
        out,
    )?;
    Ok((kind, Some(length)))
}

// The status of a text that was admitted.
fn read_status(
    text: Text,
    joined: &mut [u8],
    out: &mut [u8],
) -> Result<(StatusKind, Option<usize>), Refusal>
    requires { (length text.bytes.now ≤ length joined.old) × (length joined.old ≤ text_limit) }
    ensures result_value { result ≡ answer_of (status_outcome (of_words (words (decode text.entry.bytes.now)))) (length out.old) }
    ensures out_after { out.new ≡ written_of (status_outcome (of_words (words (decode text.entry.bytes.now)))) out.old }
{
    let word = lexer::first_word(text.bytes);
    let kind = StatusKind::from_word(&text.bytes[word.from..word.end])?;
    after_word(kind, text.bytes, word.end, joined, out)
}

// The same in a scratch of its own, with room for so many bytes.
fn read_status_in<const BYTES: usize>(
    text: Text,
    out: &mut [u8],
) -> Result<(StatusKind, Option<usize>), Refusal>
    requires { (length text.bytes.now ≤ BYTES) × (BYTES ≤ text_limit) }
    ensures result_value { result ≡ answer_of (status_outcome (of_words (words (decode text.entry.bytes.now)))) (length out.old) }
    ensures out_after { out.new ≡ written_of (status_outcome (of_words (words (decode text.entry.bytes.now)))) out.old }
{
    let mut joined = [0u8; BYTES];
    read_status(text, &mut joined, out)
}

// In a scratch by the length of the text.
fn scan_status(text: Text, out: &mut [u8]) -> Result<(StatusKind, Option<usize>), Refusal>
    ensures result_value { result ≡ answer_of (status_outcome (of_words (words (decode text.entry.bytes.now)))) (length out.old) }
    ensures out_after { out.new ≡ written_of (status_outcome (of_words (words (decode text.entry.bytes.now)))) out.old }
{
    if text.bytes.len() <= MEDIUM {
        return read_status_in::<MEDIUM>(text, out);
    }
    read_status_in::<TEXT_LIMIT>(text, out)
}

impl Status {
    // The status that a text reads as: 10, 11 and 9, then as `Expr::parse` reads the words after the status word; a word alone needs no room.
    pub fn parse(text: &[u8], out: &mut [u8]) -> Result<(StatusKind, Option<usize>), Refusal>
        ensures result_value { result ≡ answer_of (status_answer text.now) (length out.old) }
        ensures out_after { out.new ≡ written_of (status_answer text.now) out.old }
    {
        let text = Text::admit(text)?;
        scan_status(text, out)
    }
}
