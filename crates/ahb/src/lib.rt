// The functions for callers in C and Rust, which crate ahb_c exports. Each answers with one number: a refusal with its own, 1 to 17.

#![tactic(auto)]

ghost use Rattle.std.specs.Prelude.{◌≡◌, ◌+◌, ◌≤◌, length, MatchResult};
ghost use Rattle.std.specs.Result.{ForOk};
ghost use Rattle.refusal.specs.Refusals.{number_of};
ghost use Rattle.grammar.specs.Outcome.{answer_of, written_of};
ghost use Rattle.semantics.specs.Answers.{eval_answer, verdicts_answer};
ghost use Rattle.ahb.specs.Numbers.{accepted_from, code_step, coded, status_number, read_number, presence_number, verdicts_number};
ghost use Rattle.ahb.specs.Sizes.{ShortStatus};
ghost use Rattle.ahb.specs.Answers.{read_answer};

use reader::{Expr, Status};
use refusal::Refusal;
use status::StatusKind;

// The least accepted answer of 64 bits, and of 32.
pub const ACCEPTED: u64 = 4294967296;

const PRESENT: u32 = 256;

// What one step of a code weighs.
const CODE_STEP: u64 = 65536;

// The code of an expression, where a status has the code of its word: numbers, since C gets them.
const EXPRESSION: u8 = 7;

// The mode that reads an expression: a number, since C passes it.
const EXPRESSION_MODE: u8 = 0;

// An accepted answer of a code, and a length or a count.
fn accepted(code: u8, length: usize) -> u64
    requires { length ≤ code_step }
    ensures { result ≡ accepted_from + coded code length }
{
    ACCEPTED + (CODE_STEP * u64::from(code) + length as u64)
}

// An accepted status; a word alone has the length 0.
fn stated(kind: StatusKind, length: Option<usize>) -> u64
    requires { ShortStatus (kind, length) }
    ensures { result ≡ accepted_from + status_number (kind, length) }
{
    match length {
        None => accepted(u8::from(kind), 0),
        Some(length) => accepted(u8::from(kind), length),
    }
}

// An answer as one number: a refusal's own, or what is made of what was accepted.
pub fn answer_number<N: From<u8>, T, F: FnOnce(T) -> N>(
    answer: Result<T, Refusal>,
    accepted: F,
) -> N
    requires { ForOk answer (F.pre accepted) }
    ensures { MatchResult answer (λ value. F.post accepted value result) (λ why. N.from_gives (number_of why) result) }
{
    match answer {
        Err(why) => N::from(u8::from(why)),
        Ok(value) => accepted(value),
    }
}

// Reads a text into a tree: an expression by mode 0, a status by any other. Accepted: 2^32, and 2^16 times the
// code of the status word, or 7 for an expression, and the length of the tree; 0 for a word alone.
pub fn ahb_read(text: &[u8], mode: u8, out: &mut [u8]) -> u64
    ensures value { result ≡ read_number (answer_of (read_answer mode text.now) (length out.old)) }
    ensures out_after { out.new ≡ written_of (read_answer mode text.now) out.old }
{
    if mode == EXPRESSION_MODE {
        return answer_number(
            Expr::parse(text, out),
            |length| accepted(EXPRESSION, length),
        );
    }
    answer_number(Status::parse(text, out), |(kind, length)| {
        stated(kind, length)
    })
}

// The presence of a tree by its answers. Accepted: 256, and the number of the truth.
pub fn ahb_presence(tree: &[u8], answers: &[u8]) -> u32
    ensures { result ≡ presence_number (eval_answer tree.now answers.now) }
{
    answer_number(presence::eval(tree, answers), |truth| {
        PRESENT + u32::from(u8::from(truth))
    })
}

// Judges a value by a tree. Accepted: 2^32, and 2^16 times the number of the format truth, and the count of the
// violations, whose numbers then begin the list.
pub fn ahb_verdicts(tree: &[u8], value: &[u8], list: &mut [u8]) -> u64
    ensures value { result ≡ verdicts_number (answer_of (verdicts_answer tree.now value.now) (length list.old)) }
    ensures list_after { list.new ≡ written_of (verdicts_answer tree.now value.now) list.old }
{
    answer_number(verdicts::verdicts(tree, value, list), |(truth, count)| {
        accepted(u8::from(truth), count)
    })
}
