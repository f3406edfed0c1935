// Presence: whether a place is to be filled, from tree bytes and one answer byte a citation.

#![tactic(auto)]

ghost use Rattle.std.specs.Prelude.{◌≡◌, true, ◌&&◌, ◌+◌, ◌≤◌, ◌<◌, leb, length};
ghost use Rattle.text.specs.Bytes.{all};
ghost use Rattle.grammar.specs.Expr.{citations};
ghost use Rattle.grammar.specs.Rows.{children};
ghost use Rattle.grammar.specs.Bytes.{nodes, cites, tree_at};
ghost use Rattle.grammar.specs.Kinds.{node_kind};
ghost use Rattle.grammar.specs.declared.NodeKind.TheVariants.{Citation};
ghost use Rattle.tree.specs.Walk.{first_at};
ghost use Rattle.semantics.specs.Presence.{failed, mixes, presence, oracle_of, answers_fit};
ghost use Rattle.semantics.specs.Answers.{presence_by, eval_answer};
ghost use Rattle.presence.specs.Marks.{mark_of_kind, mark_of, is_dropped, choosing, choice_among, Marked, Ready};
ghost use Rattle.presence.specs.Tallies.{no_tally, added, anded, ored, xored, ruled};

use citation::{ConditionKind, Truth};
use grammar::NodeKind;
use refusal::Refusal;
use tree::{NODE_LIMIT, Tree};

// So many rows are few.
const FEW_ROWS: usize = 32;

// The answer byte of a citation whose evaluation failed: callers lend answers as bytes.
const FAILED: u8 = 4;

// The mark of a row: a choice drops the operand, or keeps it, or keeps it and it gates.
#[derive(Clone, Copy, PartialEq, Eq, PartialOrd, Ord)]
enum Mark {
    Dropped,
    Kept,
    Gating,
}

// The mark of a citation of this kind.
impl From<ConditionKind> for Mark {
    ghost from_gives = { λ kind mark. mark ≡ mark_of_kind kind };

    fn from(kind: ConditionKind) -> Mark {
        match kind {
            ConditionKind::Voraussetzung | ConditionKind::Paket => Mark::Gating,
            ConditionKind::Hinweis => Mark::Dropped,
            _ => Mark::Kept,
        }
    }
}

// Which values were met: False, Unknown, True, and True a second time; four facts, none of them about a value beside it.
#[derive(Clone, Copy)]
pub struct Tally {
    pub no: bool,
    pub unknown: bool,
    pub yes: bool,
    pub second: bool,
}

impl Tally {
    pub fn new() -> Tally
        ensures { result ≡ no_tally }
    {
        Tally {
            no: false,
            unknown: false,
            yes: false,
            second: false,
        }
    }

    // One value more.
    pub fn add(self, value: Truth) -> Tally
        ensures { result ≡ added self value }
    {
        match value {
            Truth::False => Tally { no: true, ..self },
            Truth::Unknown => Tally {
                unknown: true,
                ..self
            },
            Truth::True => Tally {
                yes: true,
                second: self.yes | self.second,
                ..self
            },
            Truth::Neutral => self,
        }
    }

    // The truth of a Then or an And.
    #[tactic(auto, unfolding(crate::specs::Tallies::anded))]
    pub fn and(self) -> Truth
        ensures { result ≡ anded self }
    {
        if self.no {
            return Truth::False;
        }
        if self.unknown {
            return Truth::Unknown;
        }
        if self.yes {
            Truth::True
        } else {
            Truth::Neutral
        }
    }

    // The truth of an Or.
    #[tactic(auto, unfolding(crate::specs::Tallies::ored))]
    pub fn or(self) -> Truth
        ensures { result ≡ ored self }
    {
        if self.yes {
            return Truth::True;
        }
        if self.unknown {
            return Truth::Unknown;
        }
        if self.no {
            Truth::False
        } else {
            Truth::Neutral
        }
    }

    // The truth of a Xor.
    #[tactic(auto, unfolding(crate::specs::Tallies::xored))]
    fn xor(self) -> Truth
        ensures { result ≡ xored self }
    {
        if self.second {
            return Truth::False;
        }
        if self.unknown {
            return Truth::Unknown;
        }
        if self.yes {
            return Truth::True;
        }
        if self.no {
            Truth::False
        } else {
            Truth::Neutral
        }
    }

    // The truth of a node of this kind.
    #[tactic(auto, unfolding(crate::specs::Tallies::ruled))]
    fn rule(self, kind: NodeKind) -> Truth
        ensures { result ≡ ruled kind self }
    {
        match kind {
            NodeKind::Or => self.or(),
            NodeKind::Xor => self.xor(),
            _ => self.and(),
        }
    }
}

// No answer byte is over 4.
fn all_fit(answers: &[u8]) -> bool
    ensures { result ≡ all (λ b. leb b failed) answers.now }
{
    answers.iter().all(|b| *b <= FAILED)
}

// One answer byte a citation, none over 4.
pub fn answers_fit(tree: Tree, answers: &[u8]) -> bool
    ensures { result ≡ answers_fit (tree_at tree.entry.bytes.now 0) answers.now }
{
    answers.len() == tree.cite_count() && all_fit(answers)
}

// The answer of a citation. No `TryFrom`: an answer over 3 is presence's own refusal.
#[tactic(auto, unfolding(semantics::specs::Presence::answered))]
fn answer_at(answers: &[u8], number: usize) -> Result<Truth, Refusal>
    requires { number < length answers.now }
    ensures { result ≡ oracle_of answers.now number }
{
    match answers[number] {
        0 => Ok(Truth::False),
        1 => Ok(Truth::Unknown),
        2 => Ok(Truth::True),
        3 => Ok(Truth::Neutral),
        _ => Err(Refusal::FailedAnswer),
    }
}

// The mark of a row, from the marks of the rows after it.
fn mark_row(tree: Tree, marks: &[Mark], row: usize) -> Mark
    requires { (row < nodes tree.bytes.now) × Marked tree.bytes.now (row + 1) marks.now }
    ensures { result ≡ mark_of (citations (tree_at tree.entry.bytes.now row)) }
{
    if tree.kind_at(row) == NodeKind::Citation {
        return Mark::from(ConditionKind::of_text(tree.text_at(tree.number_at(row))));
    }
    let mut mark = Mark::Dropped;
    for child in tree.children(row) {
        mark = mark.max(marks[child]);
    }
    mark
}

// Marks every row, from the last to the first.
fn mark_rows(tree: Tree, marks: &mut [Mark])
    requires { nodes tree.bytes.now ≤ length marks.old }
    ensures { Marked tree.entry.bytes.now 0 marks.new }
{
    for row in (0..tree.node_count()).rev() {
        marks[row] = mark_row(tree, marks, row);
    }
}

// A node of this kind is a choice.
fn is_choice(kind: NodeKind) -> bool
    ensures { result ≡ choosing kind }
{
    matches!(kind, NodeKind::Or | NodeKind::Xor)
}

// A row is a choice's.
fn has_choice(tree: Tree) -> bool
    ensures { result ≡ choice_among tree.entry.bytes.now (nodes tree.entry.bytes.now) }
{
    for row in 0..tree.node_count() {
        if is_choice(tree.kind_at(row)) {
            return true;
        }
    }
    false
}

// A node of this kind drops an operand with this mark.
fn drops(kind: NodeKind, mark: Mark) -> bool
    ensures { result ≡ choosing kind && is_dropped mark }
{
    is_choice(kind) && mark == Mark::Dropped
}

// What a tree is evaluated by: an answer byte for each citation, and its rows' marks where they are looked at.
#[derive(Clone, Copy)]
struct Evaluation<'a> {
    tree: Tree<'a>,
    answers: &'a [u8],
    marks: &'a [Mark],
    ghost answered: { cites tree.bytes.now ≤ length answers.now },
    ghost ready: { Ready tree.bytes.now marks.now },
}

impl Evaluation<'_> {
    // The node is a choice, and mixes.
    fn mixed(&self, row: usize, kind: NodeKind) -> bool
        requires { (row < nodes self.now.tree.bytes.now) × (kind ≡ node_kind (tree_at self.now.tree.bytes.now row)) }
        ensures { result ≡ choosing kind && mixes (children (tree_at self.now.tree.bytes.now row)) }
    {
        if !is_choice(kind) {
            return false;
        }
        let mut gate = false;
        let mut free = false;
        for child in self.tree.children(row) {
            gate |= self.marks[child] == Mark::Gating;
            free |= self.marks[child] == Mark::Kept;
        }
        gate && free
    }

    // The presence of the node at a row that is no citation's. Its citations are answered without a call.
    fn node(&self, row: usize) -> Result<Truth, Refusal>
        requires { (row < nodes self.now.tree.bytes.now) × ¬ (node_kind (tree_at self.now.tree.bytes.now row) ≡ Citation) }
        ensures { result ≡ presence (oracle_of self.now.answers.now) (first_at self.now.tree.bytes.now row) (tree_at self.now.tree.bytes.now row) }
    {
        let kind = self.tree.kind_at(row);
        if self.mixed(row, kind) {
            return Err(Refusal::ChoiceOverNeutral);
        }
        // Read here, since the loop would read them again in each turn.
        let Evaluation {
            tree,
            answers,
            marks,
        } = *self;
        let mut tally = Tally::new();
        for at in tree.children(row) {
            if drops(kind, marks[at]) {
                continue;
            }
            if tree.kind_at(at) == NodeKind::Citation {
                tally = tally.add(answer_at(answers, tree.number_at(at))?);
                continue;
            }
            tally = tally.add(self.node(at)?);
        }
        Ok(tally.rule(kind))
    }

    // The presence of the subtree at a row.
    fn subtree(&self, row: usize) -> Result<Truth, Refusal>
        requires { row < nodes self.now.tree.bytes.now }
        ensures { result ≡ presence (oracle_of self.now.answers.now) (first_at self.now.tree.bytes.now row) (tree_at self.now.tree.bytes.now row) }
    {
        if self.tree.kind_at(row) == NodeKind::Citation {
            return answer_at(self.answers, self.tree.number_at(row));
        }
        self.node(row)
    }
}

// Evaluates the tree; its rows are marked first if one of them is a choice's, since else no mark is looked at.
fn eval_marked(tree: Tree, answers: &[u8], marks: &mut [Mark]) -> Result<Truth, Refusal>
    requires { (answers_fit (tree_at tree.bytes.now 0) answers.now ≡ true) × (nodes tree.bytes.now ≤ length marks.old) }
    ensures { result ≡ presence_by answers.now (tree_at tree.entry.bytes.now 0) }
{
    if has_choice(tree) {
        mark_rows(tree, marks);
    }
    let evaluation = Evaluation {
        tree,
        answers,
        marks,
    };
    evaluation.subtree(0)
}

// The presence of a tree whose answers fit: 7 and 8 as met. The marks of few rows stand in a scratch that is small.
pub fn eval_tree(tree: Tree, answers: &[u8]) -> Result<Truth, Refusal>
    requires { answers_fit (tree_at tree.bytes.now 0) answers.now ≡ true }
    ensures { result ≡ presence_by answers.now (tree_at tree.entry.bytes.now 0) }
{
    if tree.node_count() <= FEW_ROWS {
        let mut marks = [Mark::Dropped; FEW_ROWS];
        return eval_marked(tree, answers, &mut marks);
    }
    let mut marks = [Mark::Dropped; NODE_LIMIT];
    eval_marked(tree, answers, &mut marks)
}

// Presence from tree bytes and answer bytes: 15, 16, then 7 and 8 as met.
pub fn eval(tree: &[u8], answers: &[u8]) -> Result<Truth, Refusal>
    ensures { result ≡ eval_answer tree.now answers.now }
{
    let tree = Tree::new(tree)?;
    if !answers_fit(tree, answers) {
        return Err(Refusal::WrongAnswers);
    }
    eval_tree(tree, answers)
}
