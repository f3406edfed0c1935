// Whether a value is right by the Format and Zeitpunkt conditions of a tree, and which citations are to blame if it is not.

#![tactic(auto)]

ghost use Rattle.std.specs.Prelude.{◌≡◌, ◌+◌, ◌*◌, ◌≤◌, ◌<◌, length};
ghost use Rattle.grammar.specs.Bytes.{nodes, cites, tree_at};
ghost use Rattle.grammar.specs.Kinds.{node_kind};
ghost use Rattle.grammar.specs.declared.NodeKind.TheVariants.{Citation};
ghost use Rattle.grammar.specs.Outcome.{answer_of, written_of};
ghost use Rattle.semantics.specs.Truth.{cited_truth};
ghost use Rattle.semantics.specs.Truth as format;
ghost use Rattle.semantics.specs.Answers.{verdicts_outcome, verdicts_answer, admitted_presence, eval_and_truth_answer};
ghost use Rattle.tree.specs.Walk.{first_at};
ghost use Rattle.verdicts.specs.Tallies.{rule_of};
ghost use Rattle.verdicts.specs.Judged.{Room, CitesJudged, CitedJudged, RowJudged, TreeJudged};

use citation::{ConditionKind, Truth};
use fields::{put_text, put16};
use formats::verdict_on;
use grammar::NodeKind;
use presence::{Tally, answers_fit, eval_tree};
use refusal::Refusal;
use tree::{CITATION_LIMIT, Tree};

// The bytes that the numbers of all citations of a tree take up.
pub const LIST_SIZE: usize = 512;

// So many citations are few.
const FEW: usize = 16;

// The bytes that the numbers of few citations take up.
const FEW_SIZE: usize = 32;

// A row's truth, and the place after the numbers of its violations.
#[derive(Clone, Copy)]
struct Judged {
    pub truth: Truth,
    pub at: usize,
}

// The truth of a node of this kind, by its operands' truths: Then and And, or Or and Xor.
#[tactic(auto, unfolding(crate::specs::Tallies::rule_of))]
fn node_truth(tally: Tally, kind: NodeKind) -> Truth
    ensures { result ≡ rule_of kind tally }
{
    match kind {
        NodeKind::Or | NodeKind::Xor => tally.or(),
        _ => tally.and(),
    }
}

// What a citation counts as.
fn cited_truth(text: &[u8], value: &[u8]) -> Truth
    ensures { result ≡ cited_truth value.now text.now }
{
    match ConditionKind::of_text(text) {
        ConditionKind::Format | ConditionKind::Zeitpunkt => Truth::from(verdict_on(text, value)),
        _ => Truth::True,
    }
}

// Judges each citation once: what it counts as. A call of its own, since its code would else stand in each of the functions that have a scratch.
#[inline(never)]
fn judge_cites(tree: Tree, value: &[u8], truths: &mut [Truth])
    requires { cites tree.bytes.now ≤ length truths.old }
    ensures { CitesJudged value.now tree.entry.bytes.now (cites tree.entry.bytes.now) truths.new }
{
    for n in 0..tree.cite_count() {
        truths[n] = cited_truth(tree.text_at(n), value);
    }
}

// The truth of the citation `n`, and its number in the list if it is False. List and place are parameters of their own, as buffer
// and place in crate fields.
fn judge_cited(truths: &[Truth], n: usize, list: &mut [u8], at: usize) -> Judged
    requires { (n < length truths.now) × (n < 65536) × (at + 2 ≤ length list.old) }
    ensures { CitedJudged truths.now n at list.old list.new result }
{
    let truth = truths[n];
    if truth == Truth::False {
        let next = put16(list, at, n);
        return Judged { truth, at: next };
    }
    Judged { truth, at }
}

// The truth of the node at a row that is no citation's, and the numbers of its violations in the list, which ends where it began if the
// node is not False. Its citations are looked up without a call of this function.
fn judge_node(tree: Tree, truths: &[Truth], row: usize, list: &mut [u8], from: usize) -> Judged
    requires { (row < nodes tree.bytes.now) × Room tree.bytes.now (length truths.now) (length list.old) × (from ≤ 2 * first_at tree.bytes.now row) × ¬ (node_kind (tree_at tree.bytes.now row) ≡ Citation) }
    ensures { RowJudged truths.now tree.entry.bytes.now row from list.old list.new result }
{
    let kind = tree.kind_at(row);
    let mut tally = Tally::new();
    let mut at = from;
    for child in tree.children(row) {
        if tree.kind_at(child) == NodeKind::Citation {
            let cited = judge_cited(truths, tree.number_at(child), list, at);
            tally = tally.add(cited.truth);
            at = cited.at;
            continue;
        }
        let here = judge_node(tree, truths, child, list, at);
        tally = tally.add(here.truth);
        at = here.at;
    }
    let truth = node_truth(tally, kind);
    if truth == Truth::False {
        return Judged { truth, at };
    }
    Judged { truth, at: from }
}

// The truth of the subtree at a row, and the numbers of its violations in the list.
fn judge_row(tree: Tree, truths: &[Truth], row: usize, list: &mut [u8], from: usize) -> Judged
    requires { (row < nodes tree.bytes.now) × Room tree.bytes.now (length truths.now) (length list.old) × (from ≤ 2 * first_at tree.bytes.now row) }
    ensures { RowJudged truths.now tree.entry.bytes.now row from list.old list.new result }
{
    if tree.kind_at(row) == NodeKind::Citation {
        return judge_cited(truths, tree.number_at(row), list, from);
    }
    judge_node(tree, truths, row, list, from)
}

// The format truth of a tree, and the numbers of its violations in the list, by what its citations count as.
fn judge_tree(tree: Tree, value: &[u8], truths: &mut [Truth], list: &mut [u8]) -> Judged
    requires { Room tree.bytes.now (length truths.old) (length list.old) }
    ensures { TreeJudged value.now tree.entry.bytes.now list.old list.new result }
{
    judge_cites(tree, value, truths);
    judge_row(tree, truths, 0, list, 0)
}

// The format truth of a tree. What is kept of few citations stands in a scratch that is small.
fn truth_of(tree: Tree, value: &[u8]) -> Truth
    ensures { result ≡ format.truth value.now (tree_at tree.entry.bytes.now 0) }
{
    if tree.cite_count() <= FEW {
        let mut truths = [Truth::False; FEW];
        let mut list = [0u8; FEW_SIZE];
        return judge_tree(tree, value, &mut truths, &mut list).truth;
    }
    let mut truths = [Truth::False; CITATION_LIMIT];
    let mut list = [0u8; LIST_SIZE];
    judge_tree(tree, value, &mut truths, &mut list).truth
}

// The format truth of a tree and how many violations it has, whose numbers then begin the list; 14 where they do not fit. They are listed in a
// scratch first, since more may be listed for a time than stands there in the end.
fn judge_into(
    tree: Tree,
    value: &[u8],
    truths: &mut [Truth],
    scratch: &mut [u8],
    list: &mut [u8],
) -> Result<(Truth, usize), Refusal>
    requires { Room tree.bytes.now (length truths.old) (length scratch.old) }
    ensures result_value { result ≡ answer_of (verdicts_outcome value.now (tree_at tree.entry.bytes.now 0)) (length list.old) }
    ensures list_after { list.new ≡ written_of (verdicts_outcome value.now (tree_at tree.entry.bytes.now 0)) list.old }
{
    let judged = judge_tree(tree, value, truths, scratch);
    if list.len() < judged.at {
        return Err(Refusal::NoRoom);
    }
    put_text(&scratch[..judged.at], list, 0);
    Ok((judged.truth, judged.at / 2))
}

// The format truth of a tree that was tested, for any bytes as a value, and how many violations it has, whose numbers then begin the list; 14
// where they do not fit, and no other refusal. The scratch is small for few citations.
pub fn verdicts_of(tree: Tree, value: &[u8], list: &mut [u8]) -> Result<(Truth, usize), Refusal>
    ensures result_value { result ≡ answer_of (verdicts_outcome value.now (tree_at tree.entry.bytes.now 0)) (length list.old) }
    ensures list_after { list.new ≡ written_of (verdicts_outcome value.now (tree_at tree.entry.bytes.now 0)) list.old }
{
    if tree.cite_count() <= FEW {
        let mut truths = [Truth::False; FEW];
        let mut scratch = [0u8; FEW_SIZE];
        return judge_into(tree, value, &mut truths, &mut scratch, list);
    }
    let mut truths = [Truth::False; CITATION_LIMIT];
    let mut scratch = [0u8; LIST_SIZE];
    judge_into(tree, value, &mut truths, &mut scratch, list)
}

// The format truth of a tree for a value and how many violations it has, whose numbers then begin the list: 15, the value's 10 and 11, 14 where they
// do not fit.
pub fn verdicts(tree: &[u8], value: &[u8], list: &mut [u8]) -> Result<(Truth, usize), Refusal>
    ensures result_value { result ≡ answer_of (verdicts_answer tree.now value.now) (length list.old) }
    ensures list_after { list.new ≡ written_of (verdicts_answer tree.now value.now) list.old }
{
    let tree = Tree::new(tree)?;
    utf8::admit(value, utf8::VALUE_LIMIT)?;
    verdicts_of(tree, value, list)
}

// The presence of a tree that was tested; it tests the answers and the value first: 16, the value's 10 and 11, then 7 and 8 as met.
pub fn eval_admitted(tree: Tree, answers: &[u8], value: &[u8]) -> Result<Truth, Refusal>
    ensures { result ≡ admitted_presence answers.now value.now (tree_at tree.entry.bytes.now 0) }
{
    if !answers_fit(tree, answers) {
        return Err(Refusal::WrongAnswers);
    }
    utf8::admit(value, utf8::VALUE_LIMIT)?;
    eval_tree(tree, answers)
}

// The presence and the format truth of a tree: 15, 16, the value's 10 and 11, then 7 and 8 as met.
pub fn eval_and_truth(tree: &[u8], answers: &[u8], value: &[u8]) -> Result<(Truth, Truth), Refusal>
    ensures { result ≡ eval_and_truth_answer tree.now answers.now value.now }
{
    let tree = Tree::new(tree)?;
    let found = eval_admitted(tree, answers, value)?;
    Ok((found, truth_of(tree, value)))
}
