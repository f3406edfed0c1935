// The lines that ahbline writes for its three lines.

#![tactic(auto)]

ghost use Rattle.std.specs.Prelude.{◌≡◌, ◌∷◌, ◌+◌, ◌*◌, ◌≤◌, ◌<◌, length, take};
ghost use Rattle.refusal.specs.Refusals.{number_of};
ghost use Rattle.status.specs.Status.{word_of};
ghost use Rattle.grammar.specs.Lex.{blank_char};
ghost use Rattle.grammar.specs.Print.{printed};
ghost use Rattle.grammar.specs.Reading.{citation_limit, print_limit};
ghost use Rattle.grammar.specs.Bytes.{cites, texts_in, tree_at, tree_limit};
ghost use Rattle.grammar.specs.Outcome.{answer_of, written_of};
ghost use Rattle.semantics.specs.Truth as format;
ghost use Rattle.semantics.specs.Violations as lists;
ghost use Rattle.semantics.specs.Packages as packages;
ghost use Rattle.fields.specs.Appended.{Appended};
ghost use Rattle.tree.specs.Walk.{text_at};
ghost use Rattle.line.specs.Lines.{answer_byte, answer_bytes, figure, figures, truth_name, named, line, alone_lines, format_said, tree_lines, judged_lines, shown, lines, report_answer};
ghost use Rattle.line.specs.Sizes.{longest_word, longest_truth, longest_number, longest_rows, longest_list, longest_status_line, longest_tree_line, longest_presence_line, longest_pakete_line, longest_format_line, longest_refused_line, longest_report};
ghost use Rattle.line.specs.Parts.{Within, numbers_from, AllBelow};

use citation::Truth;
use fields::{get16, map_into, put_byte, put_text};
pub use kept::{ANSWERS_KEPT, Input, Line, STATUS_KEPT, VALUE_KEPT};
use packages::pakete;
use printer::{PRINT_LIMIT, display};
use reader::Status;
use refusal::Refusal;
use status::StatusKind;
use tree::{CITATION_LIMIT, TREE_LIMIT, Tree};
use verdicts::{LIST_SIZE, eval_admitted, verdicts_of};

mod kept;

// The sizes of the scratch: all package rows, all lines.
const ROWS_SIZE: usize = 4864;

pub const LINES_SIZE: usize = 6708;

// f u t n e for 0 to 4, and 5 for any other letter, as the definition counts: it is an answer byte that is refused like any over 4.
fn answer_byte(letter: u8) -> u8
    ensures { result ≡ answer_byte letter }
{
    match letter {
        b'f' => 0,
        b'u' => 1,
        b't' => 2,
        b'n' => 3,
        b'e' => 4,
        _ => 5,
    }
}

// The answer bytes of letters, at the start of a scratch.
fn answer_bytes(answers: &[u8], codes: &mut [u8])
    requires { length answers.now ≤ length codes.old }
    ensures { take (length answers.now) codes.new ≡ answer_bytes answers.now }
{
    map_into(answers, codes, answer_byte)
}

fn digit(d: usize) -> u8
    requires { d < 10 }
    ensures { result ≡ figure d }
{
    (48 + d) as u8
}

// A number in decimal; the answer is the place after it, here and below. What is written goes by functions and not by
// `Display`, since a contract names the bytes, by the field's own `figures`.
fn put_number(n: usize, out: &mut [u8], at: usize) -> usize
    requires { (n < 1000) × (at + longest_number ≤ length out.old) }
    ensures { Within longest_number (figures n) at out.old out.new result }
{
    if n < 10 {
        return put_byte(out, at, digit(n));
    }
    if n < 100 {
        let tens = put_byte(out, at, digit(n / 10));
        return put_byte(out, tens, digit(n % 10));
    }
    let hundreds = put_byte(out, at, digit(n / 100));
    let tens = put_byte(out, hundreds, digit(n / 10 % 10));
    put_byte(out, tens, digit(n % 10))
}

fn put_truth(truth: Truth, out: &mut [u8], at: usize) -> usize
    requires { at + longest_truth ≤ length out.old }
    ensures { Within longest_truth (truth_name truth) at out.old out.new result }
{
    match truth {
        Truth::False => put_text(b"False", out, at),
        Truth::Unknown => put_text(b"Unknown", out, at),
        Truth::True => put_text(b"True", out, at),
        Truth::Neutral => put_text(b"Neutral", out, at),
    }
}

fn put_word(kind: StatusKind, out: &mut [u8], at: usize) -> usize
    requires { at + longest_word ≤ length out.old }
    ensures { Within longest_word (word_of kind) at out.old out.new result }
{
    put_text(kind.as_str().as_bytes(), out, at)
}

// refused N
fn refused_line(why: Refusal, out: &mut [u8]) -> usize
    requires { longest_refused_line ≤ length out.old }
    ensures { Appended (line "refused " (figures (number_of why))) 0 out.old out.new result }
{
    let number = usize::from(u8::from(why));
    let from = put_text(b"refused ", out, 0);
    let end = put_number(number, out, from);
    put_byte(out, end, b'\n')
}

// The lines of a report: each says another definition of another value, so they stay functions of their own; one law serves
// all, and one function of the name would take what is said as a closure with buffer and place for parameters, no plainer than its two lines. Kind, tree and value are three parameters, since
// most functions take one or two of them; buffer and place are two, as in crate fields, which says why; and callers lend any longer buffer, so its length is a clause and no array's.
fn status_line(kind: StatusKind, out: &mut [u8], at: usize) -> usize
    requires { at + longest_status_line ≤ length out.old }
    ensures { Within longest_status_line (line "status " (word_of kind)) at out.old out.new result }
{
    let from = put_text(b"status ", out, at);
    let end = put_word(kind, out, from);
    put_byte(out, end, b'\n')
}

// The print of a tree, at the start of a scratch.
fn print_into(tree: Tree, scratch: &mut [u8]) -> usize
    requires { print_limit ≤ length scratch.old }
    ensures { (result ≤ print_limit) × (take result scratch.new ≡ printed (tree_at tree.entry.bytes.now 0)) }
{
    display(tree.bytes, scratch).unwrap_or(0)
}

fn tree_line(tree: Tree, out: &mut [u8], at: usize) -> usize
    requires { at + longest_tree_line ≤ length out.old }
    ensures { Within longest_tree_line (line "tree " (printed (tree_at tree.entry.bytes.now 0))) at out.old out.new result }
{
    let mut scratch = [0u8; PRINT_LIMIT];
    let n = print_into(tree, &mut scratch);
    let from = put_text(b"tree ", out, at);
    let end = put_text(&scratch[..n], out, from);
    put_byte(out, end, b'\n')
}

fn presence_line(truth: Truth, out: &mut [u8], at: usize) -> usize
    requires { at + longest_presence_line ≤ length out.old }
    ensures { Within longest_presence_line (line "presence " (truth_name truth)) at out.old out.new result }
{
    let from = put_text(b"presence ", out, at);
    let end = put_truth(truth, out, from);
    put_byte(out, end, b'\n')
}

// How many package rows a tree has.
fn count_pakete(tree: Tree, scratch: &mut [u8]) -> usize
    requires { longest_rows ≤ length scratch.old }
    ensures { (result ≤ citation_limit) × (result ≡ length (packages.pakete (tree_at tree.entry.bytes.now 0))) }
{
    pakete(tree.bytes, scratch).unwrap_or(0)
}

fn pakete_line(tree: Tree, out: &mut [u8], at: usize) -> usize
    requires { at + longest_pakete_line ≤ length out.old }
    ensures { Within longest_pakete_line (line "pakete " (figures (length (packages.pakete (tree_at tree.entry.bytes.now 0))))) at out.old out.new result }
{
    let mut scratch = [0u8; ROWS_SIZE];
    let n = count_pakete(tree, &mut scratch);
    let from = put_text(b"pakete ", out, at);
    let end = put_number(n, out, from);
    put_byte(out, end, b'\n')
}

// A space and a citation's text.
fn put_cited(tree: Tree, number: usize, out: &mut [u8], at: usize) -> usize
    requires { (number < cites tree.bytes.now) × (at + (length (text_at tree.bytes.now number) + 1) ≤ length out.old) }
    ensures { Appended (blank_char ∷ text_at tree.entry.bytes.now number) at out.old out.new result }
{
    let from = put_byte(out, at, b' ');
    put_text(tree.text_at(number), out, from)
}

// The same of so many citations, whose numbers stand in a list: a count beside it, as the definition `numbers_from` has it, where a shorter list would be halved again.
fn put_named(tree: Tree, list: &[u8], count: usize, out: &mut [u8], at: usize) -> usize
    requires { (2 * count ≤ length list.now) × AllBelow (cites tree.bytes.now) (numbers_from list.now count 0) × (at + length (named (texts_in tree.bytes.now) (numbers_from list.now count 0)) ≤ length out.old) }
    ensures { Appended (named (texts_in tree.entry.bytes.now) (numbers_from list.now count 0)) at out.old out.new result }
{
    let mut w = at;
    for k in 0..count {
        w = put_cited(tree, get16(list, 2 * k), out, w);
    }
    w
}

// The format truth of a tree and how many violations it has; their numbers then begin the scratch. That holds every list, so 14 does not arise.
fn list_verdicts(tree: Tree, value: &[u8], scratch: &mut [u8]) -> (Truth, usize)
    requires { longest_list ≤ length scratch.old }
    ensures truth { result.0 ≡ format.truth value.now (tree_at tree.entry.bytes.now 0) }
    ensures listed { (result.1 ≤ citation_limit) × (numbers_from scratch.new result.1 0 ≡ lists.violations value.now (tree_at tree.entry.bytes.now 0)) }
{
    verdicts_of(tree, value, scratch).unwrap_or((Truth::False, 0))
}

fn format_line(tree: Tree, value: &[u8], out: &mut [u8], at: usize) -> usize
    requires { at + longest_format_line ≤ length out.old }
    ensures { Appended (line "format " (format_said value.now (format.truth value.now (tree_at tree.entry.bytes.now 0)) (tree_at tree.entry.bytes.now 0))) at out.old out.new result }
{
    let mut list = [0u8; LIST_SIZE];
    let (truth, n) = list_verdicts(tree, value, &mut list);
    let from = put_text(b"format ", out, at);
    let w = put_truth(truth, out, from);
    let end = put_named(tree, &list, n, out, w);
    put_byte(out, end, b'\n')
}

// The lines of a word alone.
fn alone_lines(kind: StatusKind, out: &mut [u8]) -> usize
    requires { longest_report ≤ length out.old }
    ensures { Appended (alone_lines kind) 0 out.old out.new result }
{
    let from = status_line(kind, out, 0);
    put_text(b"tree -\npresence -\npakete -\nformat -\n", out, from)
}

// The lines of a word and a tree with its presence.
fn tree_lines(kind: StatusKind, tree: Tree, value: &[u8], presence: Truth, out: &mut [u8]) -> usize
    requires { longest_report ≤ length out.old }
    ensures { Appended (tree_lines kind (tree_at tree.entry.bytes.now 0) value.now presence (format.truth value.now (tree_at tree.entry.bytes.now 0))) 0 out.old out.new result }
{
    let a = status_line(kind, out, 0);
    let b = tree_line(tree, out, a);
    let p = presence_line(presence, out, b);
    let n = pakete_line(tree, out, p);
    format_line(tree, value, out, n)
}

// The lines of a word and a tree, by answer bytes.
fn judged_lines(kind: StatusKind, tree: Tree, codes: &[u8], value: &[u8], out: &mut [u8]) -> usize
    requires { longest_report ≤ length out.old }
    ensures { Appended (shown (judged_lines kind tree.entry.bytes.now (tree_at tree.entry.bytes.now 0) codes.now value.now)) 0 out.old out.new result }
{
    match eval_admitted(tree, codes, value) {
        Err(why) => refused_line(why, out),
        Ok(presence) => tree_lines(kind, tree, value, presence, out),
    }
}

// The same by letters, no more than there can be citations.
fn lettered_lines(
    kind: StatusKind,
    tree: Tree,
    answers: &[u8],
    codes: &mut [u8],
    value: &[u8],
    out: &mut [u8],
) -> usize
    requires { (length answers.now ≤ length codes.old) × (longest_report ≤ length out.old) }
    ensures { Appended (shown (judged_lines kind tree.entry.bytes.now (tree_at tree.entry.bytes.now 0) (answer_bytes answers.now) value.now)) 0 out.old out.new result }
{
    answer_bytes(answers, codes);
    judged_lines(kind, tree, &codes[..answers.len()], value, out)
}

// The same by any letters.
fn answered_lines(
    kind: StatusKind,
    tree: Tree,
    answers: &[u8],
    value: &[u8],
    out: &mut [u8],
) -> usize
    requires { longest_report ≤ length out.old }
    ensures { Appended (shown (judged_lines kind tree.entry.bytes.now (tree_at tree.entry.bytes.now 0) (answer_bytes answers.now) value.now)) 0 out.old out.new result }
{
    if CITATION_LIMIT < answers.len() {
        return refused_line(Refusal::WrongAnswers, out);
    }
    let mut codes = [0u8; CITATION_LIMIT];
    lettered_lines(kind, tree, answers, &mut codes, value, out)
}

// The lines for three lines, in a scratch.
fn write_lines(
    status: &[u8],
    answers: &[u8],
    value: &[u8],
    tree: &mut [u8],
    out: &mut [u8],
) -> usize
    requires { (tree_limit ≤ length tree.old) × (longest_report ≤ length out.old) }
    ensures { Appended (lines status.now answers.now value.now) 0 out.old out.new result }
{
    match Status::parse(status, tree) {
        Err(why) => refused_line(why, out),
        Ok((kind, None)) => alone_lines(kind, out),
        Ok((kind, Some(length))) => {
            let tree = Tree {
                bytes: &tree[..length],
            };
            answered_lines(kind, tree, answers, value, out)
        }
    }
}

// The lines that ahbline writes for its three lines, each without its line feed.
pub fn report(status: &[u8], answers: &[u8], value: &[u8], out: &mut [u8]) -> Result<usize, Refusal>
    ensures result_value { result ≡ answer_of (report_answer status.now answers.now value.now) (length out.old) }
    ensures out_after { out.new ≡ written_of (report_answer status.now answers.now value.now) out.old }
{
    let mut tree = [0u8; TREE_LIMIT];
    let mut text = [0u8; LINES_SIZE];
    let n = write_lines(status, answers, value, &mut tree, &mut text);
    if out.len() < n {
        return Err(Refusal::NoRoom);
    }
    put_text(&text[..n], out, 0);
    Ok(n)
}
