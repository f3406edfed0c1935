// From a text in UTF-8 to tokens: the kind of each, the place of each citation's text, and the tests that come before parsing. For a status, its first word and its other words joined.

#![tactic(auto)]

ghost use Rattle.std.specs.Prelude.{◌≡◌, Bool, true, false, ◌++◌, ◌+◌, ◌-◌, ◌≤◌, ◌<◌, length, take, drop, set, MatchResult};
ghost use Rattle.std.specs.Iterator.{at_most};
ghost use Rattle.refusal.specs.Result.{map_ok};
ghost use Rattle.text.specs.Bytes.{over};
ghost use Rattle.utf8.specs.Utf8.{is_utf8, decode, encode};
ghost use Rattle.utf8.specs.Limits.{text_limit};
ghost use Rattle.grammar.specs.Lex.{cite_end, part};
ghost use Rattle.grammar.specs.Status.{words, joined};
ghost use Rattle.fields.specs.Appended.{Appended};
ghost use Rattle.lexer.specs.Runs.{run_end, GoesOn, up_to, first_word, NextWord, gap};
ghost use Rattle.lexer.specs.Tokens.{kinds_of, meaning, deeper, counted, tokenized, counts_limited, placed};
ghost use Rattle.lexer.specs.Numbers.{token_numbered, token_number};
ghost use Rattle.lexer.specs.Admitted.{NotAdmitted};
ghost use Rattle.lexer.specs.Scan.{scan, scanned, places_in};
ghost use Rattle.lexer.specs.State.{Closes, Begins, NextToken, InText, Stored, Ends};

use fields::put_text;
pub use grammar::{CITATION_LIMIT, CITED_LIMIT};
use refusal::Refusal;
use utf8::{Step, TEXT_LIMIT, Walker};

// The kinds of tokens.
#[derive(Clone, Copy, Debug, PartialEq, Eq)]
pub enum TokenKind {
    Citation,
    And,
    Or,
    Xor,
    Opening,
    Closing,
}

// For callers who hold bytes: the kind for which one stands. A citation and the operators have the numbers of their node rows, an opening parenthesis has 5,
// and what is no kind closes.
impl From<u8> for TokenKind {
    ghost from_gives = { λ number kind. kind ≡ token_numbered number };

    #[tactic(auto, using(crate::specs::Numbers::token_numbered_one, crate::specs::Numbers::token_numbered_over), unfolding(crate::specs::Numbers::token_numbered))]
    fn from(number: u8) -> TokenKind {
        match number {
            0 => TokenKind::Citation,
            2 => TokenKind::And,
            3 => TokenKind::Or,
            4 => TokenKind::Xor,
            5 => TokenKind::Opening,
            _ => TokenKind::Closing,
        }
    }
}

// The number that stands for a kind.
impl From<TokenKind> for u8 {
    ghost from_gives = { λ kind number. number ≡ token_number kind };

    #[tactic(auto, unfolding(crate::specs::Numbers::token_number))]
    fn from(kind: TokenKind) -> u8 {
        match kind {
            TokenKind::Citation => 0,
            TokenKind::And => 2,
            TokenKind::Or => 3,
            TokenKind::Xor => 4,
            TokenKind::Opening => 5,
            TokenKind::Closing => 6,
        }
    }
}

// What a character outside a citation is: the beginning of one, another token, white space, or none of these.
#[derive(Clone, Copy)]
enum Meaning {
    Bracket,
    Mark(TokenKind),
    White,
    Stray,
}

// Most parentheses open at a time.
pub const OPEN_LIMIT: usize = 256;

// A text that was admitted: short enough, and UTF-8.
#[derive(Clone, Copy)]
pub struct Text<'a> {
    pub bytes: &'a [u8],
    ghost short: { length bytes.now ≤ text_limit },
    ghost well: { is_utf8 bytes.now ≡ true },
}

impl<'a> Text<'a> {
    // The text that the bytes are; 10 and 11 if they are none.
    pub fn admit(bytes: &'a [u8]) -> Result<Self, Refusal>
        ensures { MatchResult result (λ text. text.bytes.now ≡ bytes.entry.now) (λ why. NotAdmitted bytes.entry.now why) }
    {
        utf8::admit(bytes, TEXT_LIMIT)?;
        Ok(Text { bytes })
    }
}

// Part of a text: its first byte's number, and the number of the byte after it.
#[derive(Clone, Copy)]
pub struct Span {
    pub from: usize,
    pub end: usize,
}

// Where the text of a citation stands: its first byte's number, and how many bytes it has. The number has 32 bits, since `write_tree` takes places in texts of any length.
#[derive(Clone, Copy)]
pub struct Place {
    pub from: u32,
    pub size: u16,
}

// What stands at a place, with the number of the byte after it.
#[derive(Clone, Copy)]
enum Token {
    Space(usize),
    Mark { kind: TokenKind, next: usize },
    Cite { from: usize, end: usize },
}

// Tokens, citations, the bytes in them, and open parentheses so far.
#[derive(Clone, Copy)]
struct Count {
    pub tokens: usize,
    pub cites: usize,
    pub bytes: usize,
    pub depth: usize,
}

// The counts of tokens, citations and bytes in them.
#[derive(Clone, Copy)]
pub struct Lexed {
    pub tokens: usize,
    pub cites: usize,
    pub bytes: usize,
}

// The place after the characters from `at` on of which the test `on` holds.
fn run_while<F: Fn(u32) -> bool>(text: &[u8], at: usize, on: F) -> usize
    requires { F.IsAlwaysCallable on }
    ensures { (white : Bool) → GoesOn white (F.post on) → result ≡ run_end white text.now at }
{
    for (place, code) in Walker::new(text, at) {
        let Some(code) = code else {
            return place;
        };
        if !on(code) {
            return place;
        }
    }
    at.max(text.len())
}

// The place after the white space from `at` on, where some byte stands: most often a visible ASCII one, and then it is `at`.
fn other_end(text: &[u8], at: usize) -> usize
    requires { at < length text.now }
    ensures { result ≡ run_end true text.now at }
{
    if text[at].is_ascii_graphic() {
        return at;
    }
    run_while(text, at, utf8::is_white)
}

// Eight spaces.
const SPACES: [u8; 8] = [b' '; 8];

// The place after the spaces from `at` on that make whole eights; no index is counted, the slice that is left gets shorter. One by one, a long run takes several times as long, by where the loop lies in memory.
fn past_eights(text: &[u8], at: usize) -> usize
    requires { at ≤ length text.now }
    ensures { (result ≤ length text.now) × (run_end true text.now result ≡ run_end true text.now at) }
{
    let mut rest = &text[at..];
    while let Some((eight, after)) = rest.split_first_chunk::<8>() {
        if *eight != SPACES {
            break;
        }
        rest = after;
    }
    text.len() - rest.len()
}

// The place after the white space from `at` on: whole eights of spaces first, then one by one.
fn spaces_end(text: &[u8], at: usize) -> usize
    requires { at ≤ length text.now }
    ensures { result ≡ run_end true text.now at }
{
    for j in past_eights(text, at)..text.len() {
        if text[j] != b' ' {
            return other_end(text, j);
        }
    }
    text.len()
}

// So many spaces are few.
const FEW_SPACES: usize = 8;

// The place after the white space from `at` on: most often a visible character stands there, or few spaces and then one.
pub fn white_end(text: &[u8], at: usize) -> usize
    ensures { result ≡ run_end true text.now at }
{
    if text.len() <= at {
        return at;
    }
    let few = text.len().min(at + FEW_SPACES);
    for i in at..few {
        if text[i] == b' ' {
            continue;
        }
        if text[i].is_ascii_graphic() {
            return i;
        }
        return other_end(text, i);
    }
    spaces_end(text, few)
}

// The place after the characters from `at` on that are not white space, where no visible ASCII one stands: most often a space, and then it is `at`.
fn other_word_end(text: &[u8], at: usize) -> usize
    requires { at < length text.now }
    ensures { result ≡ run_end false text.now at }
{
    if text[at] == b' ' {
        return at;
    }
    run_while(text, at, |c| !utf8::is_white(c))
}

// The place after the characters from `at` on that are not white space: visible ASCII ones first.
pub fn word_end(text: &[u8], at: usize) -> usize
    ensures { result ≡ run_end false text.now at }
{
    for i in at..text.len() {
        if !text[i].is_ascii_graphic() {
            return other_word_end(text, i);
        }
    }
    at.max(text.len())
}

// The place of the first `]` from `at` on, or the text's end.
fn find_end(text: &[u8], at: usize) -> usize
    ensures { result ≡ at + length (up_to cite_end (drop at text.now)) }
{
    for i in at..text.len() {
        if text[i] == b']' {
            return i;
        }
    }
    at.max(text.len())
}

// Where the citation's text ends that begins at `at`. That what is left of the text is UTF-8 stands in clauses, here and where tokens are read: a type of what is left would be made
// anew at each step.
fn close_at(text: &[u8], at: usize) -> Result<usize, Refusal>
    requires { (at ≤ length text.now) × (is_utf8 (drop at text.now) ≡ true) }
    ensures { Closes text.now at result }
{
    let end = find_end(text, at);
    if text.len() <= end {
        return Err(Refusal::Unterminated);
    }
    if white_end(text, at) == end {
        return Err(Refusal::EmptyCondition);
    }
    Ok(end)
}

// What a character outside a citation is.
#[tactic(auto, unfolding(crate::specs::Tokens::meaning, crate::specs::Tokens::sign_token, grammar::specs::Lex::part, grammar::specs::Lex::symbol))]
fn part_of(c: u32) -> Meaning
    ensures { result ≡ meaning (part c) }
{
    match c {
        0x5B => Meaning::Bracket,
        0x28 => Meaning::Mark(TokenKind::Opening),
        0x29 => Meaning::Mark(TokenKind::Closing),
        0x2227 => Meaning::Mark(TokenKind::And),
        0x2228 => Meaning::Mark(TokenKind::Or),
        0x22BB => Meaning::Mark(TokenKind::Xor),
        _ if utf8::is_white(c) => Meaning::White,
        _ => Meaning::Stray,
    }
}

// The token at `at`, or white space.
fn token_at(text: &[u8], at: usize) -> Result<Token, Refusal>
    requires { (at < length text.now) × (is_utf8 (drop at text.now) ≡ true) }
    ensures { Begins text.now at result }
{
    let Step::Char { code, width } = walker::step_from(text, at) else {
        return Err(Refusal::NotUtf8);
    };
    let next = at + width;
    match part_of(code) {
        Meaning::Bracket => Ok(Token::Cite {
            from: next,
            end: close_at(text, next)?,
        }),
        Meaning::Mark(kind) => Ok(Token::Mark { kind, next }),
        Meaning::White => Ok(Token::Space(next)),
        Meaning::Stray => Err(Refusal::Stray),
    }
}

// The open parentheses after a token; once there are too many, that stays.
fn depth_after(d: usize, kind: TokenKind) -> usize
    ensures { result ≡ deeper d kind }
{
    if OPEN_LIMIT < d {
        return d;
    }
    match kind {
        TokenKind::Opening => d + 1,
        TokenKind::Closing => d.saturating_sub(1),
        _ => d,
    }
}

// The part of a text between two bytes.
fn place_of(from: usize, end: usize) -> Place
    requires { (from ≤ end) × (end ≤ text_limit) }
    ensures { result ≡ placed from (end - from) }
{
    Place {
        from: from as u32,
        size: (end - from) as u16,
    }
}

// Stores the place of the citation that `m` were counted before, where there is room.
fn store(places: &mut [Place], m: usize, place: Place)
    ensures { places.new ≡ set places.old m place }
{
    // no `get_mut`: std says nothing of what such a slice ends as
    if m < places.len() {
        places[m] = place;
    }
}

// The tokens of a text from a byte on, white space among them; a refusal is the last.
#[derive(Drop)]
struct Tokens<'a> {
    pub text: &'a [u8],
    pub at: usize,
}

impl<'a> Iterator for Tokens<'a> {
    type Item = Result<Token, Refusal>;

    ghost can_next = { λ t. is_utf8 (drop t.at t.text.now) ≡ true };

    ghost next_gives = { λ old given new. (new.text.now ≡ old.text.now) × NextToken old.text.now old.at given new.at };

    ghost remaining = { λ t. at_most (length t.text.now - t.at) };

    fn next(&mut self) -> Option<Result<Token, Refusal>> {
        if self.text.len() <= self.at {
            return None;
        }
        let token = token_at(self.text, self.at);
        self.at = match token {
            Ok(Token::Space(next)) => next,
            Ok(Token::Mark { kind: _, next }) => next,
            Ok(Token::Cite { from: _, end }) => end + 1,
            Err(_) => self.text.len(),
        };
        Some(token)
    }
}

// Stores a token, and nothing for white space; the counts with it. Kinds and places are parameters of their own: callers lend two buffers,
// of which this fills both and no other function does.
fn store_token(token: Token, kinds: &mut [TokenKind], places: &mut [Place], p: Count) -> Count
    requires { (p.tokens < length kinds.old) × (p.cites ≤ text_limit) × (p.bytes ≤ text_limit) × InText token }
    ensures { Stored token kinds.old places.old kinds.new places.new p result }
{
    match token {
        Token::Space(_) => p,
        Token::Mark { kind, next: _ } => {
            kinds[p.tokens] = kind;
            Count {
                tokens: p.tokens + 1,
                depth: depth_after(p.depth, kind),
                ..p
            }
        }
        Token::Cite { from, end } => {
            kinds[p.tokens] = TokenKind::Citation;
            store(places, p.cites, place_of(from, end));
            Count {
                tokens: p.tokens + 1,
                cites: p.cites + 1,
                bytes: p.bytes + (end - from),
                ..p
            }
        }
    }
}

// The tokens of a whole text, or the leftmost refusal.
fn lex_all(text: Text, kinds: &mut [TokenKind], places: &mut [Place]) -> Result<Count, Refusal>
    requires { length text.bytes.now ≤ length kinds.old }
    ensures { Ends text.entry.bytes.now kinds.old places.old kinds.new places.new result }
{
    let mut p = Count {
        tokens: 0,
        cites: 0,
        bytes: 0,
        depth: 0,
    };
    let text = text.bytes;
    for token in (Tokens { text, at: 0 }) {
        p = store_token(token?, kinds, places, p);
    }
    Ok(p)
}

// The tests 6, 12 and 13.
#[tactic(auto, unfolding(crate::specs::Tokens::counts_limited))]
fn limited(p: Count) -> Result<Lexed, Refusal>
    ensures { result ≡ counts_limited p }
{
    if p.tokens == 0 {
        return Err(Refusal::Empty);
    }
    if CITATION_LIMIT < p.cites || CITED_LIMIT < p.bytes {
        return Err(Refusal::TooManyCitations);
    }
    if OPEN_LIMIT < p.depth {
        return Err(Refusal::TooDeep);
    }
    Ok(Lexed {
        tokens: p.tokens,
        cites: p.cites,
        bytes: p.bytes,
    })
}

// The tokens of a text, those in front of the leftmost refusal if there is one: the kind of each in `kinds`, the places of the citations' texts in `places`, as many as have room there.
pub fn lex(text: Text, kinds: &mut [TokenKind], places: &mut [Place]) -> Result<Lexed, Refusal>
    requires { length text.bytes.now ≤ length kinds.old }
    ensures result_value { result ≡ map_ok counted (tokenized (decode text.entry.bytes.now)) }
    ensures kinds_after { kinds.new ≡ over (kinds_of (scanned (scan 0 (decode text.entry.bytes.now)))) kinds.old }
    ensures places_after { places.new ≡ over (take (length places.old) (places_in (scan 0 (decode text.entry.bytes.now)))) places.old }
{
    limited(lex_all(text, kinds, places)?)
}

// The first word of a text; an empty part at its end if it has none.
#[tactic(auto, unfolding(crate::specs::Runs::first_word))]
pub fn first_word(text: &[u8]) -> Span
    ensures { result ≡ first_word text.now }
{
    let from = white_end(text, 0);
    let end = word_end(text, from);
    Span { from, end }
}

// The words of a text from a byte on: white space is passed, and then the word. It ends where no word stands, so that bad bytes end it too.
#[derive(Drop)]
struct Words<'a> {
    pub text: &'a [u8],
    pub at: usize,
}

impl<'a> Iterator for Words<'a> {
    type Item = Span;

    ghost next_gives = { λ old given new. (new.text.now ≡ old.text.now) × NextWord old.text.now old.at given new.at };

    ghost remaining = { λ w. at_most (length w.text.now - w.at) };

    fn next(&mut self) -> Option<Span> {
        let from = white_end(self.text, self.at);
        let end = word_end(self.text, from);
        if end == from {
            return None;
        }
        self.at = end;
        Some(Span { from, end })
    }
}

// A space after the `n` bytes of joined words, if there are any; how many bytes are then written.
fn add_gap(out: &mut [u8], n: usize) -> usize
    requires { n + length (gap n) ≤ length out.old }
    ensures { Appended (gap n) n out.old out.new result }
{
    if n == 0 {
        return 0;
    }
    out[n] = b' ';
    n + 1
}

// The words of `text` from `from` on, joined with one space each, into `out`; how many bytes that is.
pub fn join_words(text: &[u8], from: usize, out: &mut [u8]) -> usize
    requires { (from ≤ length text.now) × (length text.now ≤ from + length out.old) × (is_utf8 (drop from text.now) ≡ true) }
    ensures value { result ≡ length (encode (joined (words (decode (drop from text.now))))) }
    ensures out_after { out.new ≡ encode (joined (words (decode (drop from text.now)))) ++ drop result out.old }
{
    let mut n = 0;
    for word in (Words { text, at: from }) {
        let to = add_gap(out, n);
        n = put_text(&text[word.from..word.end], out, to);
    }
    n
}
