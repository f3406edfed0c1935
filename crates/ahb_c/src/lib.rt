// The static library for callers in C and Rust: the functions of `ahb` under their C names. A static library exports its own
// functions alone, so they stand here again.

#![tactic(auto)]

ghost use Rattle.std.specs.Prelude.{◌≡◌, length};
ghost use Rattle.grammar.specs.Outcome.{answer_of, written_of};
ghost use Rattle.semantics.specs.Answers.{eval_answer, verdicts_answer};
ghost use Rattle.ahb.specs.Numbers.{read_number, presence_number, verdicts_number};
ghost use Rattle.ahb.specs.Answers.{read_answer};

// Reads a text into a tree: an expression by mode 0, a status by any other. Accepted: 2^32, and 2^16 times the
// code of the status word, or 7 for an expression, and the length of the tree; 0 for a word alone.
#[unsafe(no_mangle)]
pub extern "C" fn ahb_read(text: &[u8], mode: u8, out: &mut [u8]) -> u64
    ensures value { result ≡ read_number (answer_of (read_answer mode text.now) (length out.old)) }
    ensures out_after { out.new ≡ written_of (read_answer mode text.now) out.old }
{
    ahb::ahb_read(text, mode, out)
}

// The presence of a tree by its answers. Accepted: 256, and the number of the truth.
#[unsafe(no_mangle)]
pub extern "C" fn ahb_presence(tree: &[u8], answers: &[u8]) -> u32
    ensures { result ≡ presence_number (eval_answer tree.now answers.now) }
{
    ahb::ahb_presence(tree, answers)
}

// Judges a value by a tree. Accepted: 2^32, and 2^16 times the number of the format truth, and the count of the
// violations, whose numbers then begin the list.
#[unsafe(no_mangle)]
pub extern "C" fn ahb_verdicts(tree: &[u8], value: &[u8], list: &mut [u8]) -> u64
    ensures value { result ≡ verdicts_number (answer_of (verdicts_answer tree.now value.now) (length list.old)) }
    ensures list_after { list.new ≡ written_of (verdicts_answer tree.now value.now) list.old }
{
    ahb::ahb_verdicts(tree, value, list)
}
