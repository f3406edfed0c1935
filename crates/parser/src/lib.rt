// From the kinds of tokens to the node rows of the expression that they are.

#![tactic(auto)]

ghost use Rattle.std.specs.Prelude.{◌≡◌, ◌+◌, ◌*◌, ◌≤◌, ◌<◌, length, map};
ghost use Rattle.refusal.specs.Result.{map_ok};
ghost use Rattle.utf8.specs.Limits.{text_limit};
ghost use Rattle.grammar.specs.Rows.{span};
ghost use Rattle.lexer.specs.Numbers.{token_numbered};
ghost use Rattle.grammar.specs.Reading.{citation_limit};
ghost use Rattle.parser.specs.Packed.{pack, child_count};
ghost use Rattle.parser.specs.Answer.{cites_in, parsed_kinds, rows_over};
ghost use Rattle.parser.specs.Tokens.{from, op_ahead, operand_ahead};
ghost use Rattle.parser.specs.States.{Ready, AtomSays, JuxSays, ChainSays, noded, past, noded_rows, Stand, Placed};

use fields::map_into;
use grammar::NodeKind;
use lexer::TokenKind;
use refusal::Refusal;
use utf8::TEXT_LIMIT;

// A place in the tokens, the rows written and the citations met.
#[derive(Clone, Copy)]
pub struct Pos {
    pub at: usize,
    pub rows: usize,
    pub cites: usize,
}

// A node's row: its kind, the number of its children or of its citation, and the rows in its subtree.
#[derive(Clone, Copy)]
pub struct Row {
    pub kind: NodeKind,
    pub number: u16,
    pub size: u16,
}

// The kind of the operator at a place, if one is there.
fn op_at(toks: &[TokenKind], at: usize) -> Option<NodeKind>
    ensures { result ≡ op_ahead (from toks.now at) }
{
    match toks.get(at)? {
        TokenKind::And => Some(NodeKind::And),
        TokenKind::Or => Some(NodeKind::Or),
        TokenKind::Xor => Some(NodeKind::Xor),
        _ => None,
    }
}

// Whether an operand begins at a place.
fn operand_at(toks: &[TokenKind], at: usize) -> bool
    ensures { result ≡ operand_ahead (from toks.now at) }
{
    match toks.get(at) {
        Some(kind) => matches!(kind, TokenKind::Citation | TokenKind::Opening),
        None => false,
    }
}

// The row of this kind, number and size.
fn make_row(kind: NodeKind, number: usize, size: usize) -> Row
    requires { (number < 65536) × (size < 65536) }
    ensures { result ≡ pack kind number size }
{
    Row {
        kind,
        number: number as u16,
        size: size as u16,
    }
}

// How many children a row has.
fn row_children(row: Row) -> usize
    ensures { result ≡ child_count row.kind row.number }
{
    if row.kind == NodeKind::Citation {
        return 0;
    }
    row.number as usize
}

// Writes the row of the node of this kind with so many operands, whose rows begin at `start`.
fn add_node(work: &mut [Row], start: usize, q: Pos, kind: NodeKind, kids: usize) -> Pos
    requires { (start ≤ q.rows) × (q.rows < length work.old) × (kids ≤ citation_limit) × (q.rows ≤ start + 2 * citation_limit) }
    ensures value { result ≡ noded q }
    ensures work_after { work.new ≡ noded_rows work.old start q kind kids }
{
    let end = q.rows;
    work[end] = make_row(kind, kids, end + 1 - start);
    Pos { rows: end + 1, ..q }
}

// One token on. That a place is within a text's limit is asked here: as a type's fact it would be proved at each place that is made.
fn past_token(q: Pos) -> Pos
    requires { q.at ≤ text_limit }
    ensures { result ≡ past q }
{
    Pos { at: q.at + 1, ..q }
}

// A citation, or a group in parentheses. Tokens, rows and place are parameters of their own here and below: tokens are only read and rows only written, and the place goes by value from
// one function to the next, in the answer, so that a struct of the three would be made anew for each call.
#[cycle(parse)]
fn parse_atom(toks: &[TokenKind], work: &mut [Row], p: Pos) -> Result<Pos, Refusal>
    requires { Ready toks.now (length work.old) p }
    ensures { AtomSays toks.now p work.old work.new result }
{
    let Some(kind) = toks.get(p.at) else {
        return Err(Refusal::MissingOperand);
    };
    match kind {
        TokenKind::Citation => {
            work[p.rows] = make_row(NodeKind::Citation, p.cites, 1);
            Ok(Pos {
                at: p.at + 1,
                rows: p.rows + 1,
                cites: p.cites + 1,
            })
        }
        TokenKind::Opening => {
            let q = parse_chain(toks, work, past_token(p))?;
            if q.at == toks.len() {
                return Err(Refusal::Parentheses);
            }
            Ok(past_token(q))
        }
        _ => Err(Refusal::MissingOperand),
    }
}

// A run of atoms: two or more are one Then.
#[cycle(parse)]
fn parse_juxtaposition(toks: &[TokenKind], work: &mut [Row], p: Pos) -> Result<Pos, Refusal>
    requires { Ready toks.now (length work.old) p }
    ensures { JuxSays toks.now p work.old work.new result }
{
    let mut q = parse_atom(toks, work, p)?;
    let mut kids = 1;
    // No `for`: a step reads an operand by recursion and writes its rows; an iterator would lend the rows on and be this step again.
    while operand_at(toks, q.at) {
        q = parse_atom(toks, work, q)?;
        kids += 1;
    }
    if kids == 1 {
        return Ok(q);
    }
    Ok(add_node(work, p.rows, q, NodeKind::Then, kids))
}

// Juxtapositions joined by operators, from left to right: a chain grows by its own operator; another takes it as the first operand of a new one.
#[cycle(parse)]
fn parse_chain(toks: &[TokenKind], work: &mut [Row], p: Pos) -> Result<Pos, Refusal>
    requires { Ready toks.now (length work.old) p }
    ensures { ChainSays toks.now p work.old work.new result }
{
    let lead = parse_juxtaposition(toks, work, p)?;
    let Some(first) = op_at(toks, lead.at) else {
        return Ok(lead);
    };
    let mut op = first;
    let mut kids = 1;
    let mut q = past_token(lead);
    // No `for`, as above.
    loop {
        let next = parse_juxtaposition(toks, work, q)?;
        kids += 1;
        let Some(sign) = op_at(toks, next.at) else {
            return Ok(add_node(work, p.rows, next, op, kids));
        };
        if sign == op {
            q = past_token(next);
        } else {
            q = past_token(add_node(work, p.rows, next, op, kids));
            op = sign;
            kids = 1;
        }
    }
}

// Puts `count` trees, whose rows in postorder end before `top`, in the order of the tree before `end`.
fn place(work: &[Row], top: usize, count: usize, rows: &mut [Row], end: usize)
    requires { (end ≤ length rows.old) × Stand work.now top count end }
    ensures { Placed work.now top count end rows.old rows.new }
{
    if count == 0 {
        return;
    }
    let row = work[top - 1];
    let size = row.size as usize;
    rows[end - size] = row;
    place(work, top - 1, row_children(row), rows, end);
    place(work, top - size, count - 1, rows, end - size);
}

// The rows of the expression that all tokens together are. `work` is scratch: it keeps its length, and what it holds afterwards is free.
pub fn parse_tokens(
    toks: &[TokenKind],
    work: &mut [Row],
    rows: &mut [Row],
) -> Result<usize, Refusal>
    requires { (length toks.now ≤ text_limit) × (cites_in toks.now ≤ citation_limit) × (2 * cites_in toks.now ≤ length work.old + 1) × (2 * cites_in toks.now ≤ length rows.old + 1) }
    ensures result_value { result ≡ map_ok span (parsed_kinds toks.now) }
    ensures rows_after { rows.new ≡ rows_over (parsed_kinds toks.now) rows.old }
{
    let start = Pos {
        at: 0,
        rows: 0,
        cites: 0,
    };
    let q = parse_chain(toks, work, start)?;
    if q.at < toks.len() {
        return Err(Refusal::Parentheses);
    }
    place(work, q.rows, 1, rows, q.rows);
    Ok(q.rows)
}

// The same for callers who hold the kinds as bytes: every byte stands for one.
pub fn parse_bytes(toks: &[u8], work: &mut [Row], rows: &mut [Row]) -> Result<usize, Refusal>
    requires { (length toks.now ≤ text_limit) × (cites_in (map token_numbered toks.now) ≤ citation_limit) × (2 * cites_in (map token_numbered toks.now) ≤ length work.old + 1) × (2 * cites_in (map token_numbered toks.now) ≤ length rows.old + 1) }
    ensures result_value { result ≡ map_ok span (parsed_kinds (map token_numbered toks.now)) }
    ensures rows_after { rows.new ≡ rows_over (parsed_kinds (map token_numbered toks.now)) rows.old }
{
    let mut kinds = [TokenKind::Closing; TEXT_LIMIT];
    map_into(toks, &mut kinds, |byte| TokenKind::from(byte));
    parse_tokens(&kinds[..toks.len()], work, rows)
}
