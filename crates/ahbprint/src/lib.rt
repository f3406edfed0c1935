// Printing for callers in C and Rust, which crate ahbprint_c exports; the benchmark calls it. It answers as the functions of `ahb` do.

#![tactic(auto)]

ghost use Rattle.std.specs.Prelude.{◌≡◌, length};
ghost use Rattle.grammar.specs.Outcome.{answer_of, written_of, display_answer};
ghost use Rattle.ahbprint.specs.Numbers.{print_number};

use ahb::ACCEPTED;

// Prints a tree. Accepted: 2^32, and the length of the print.
pub fn ahb_print(tree: &[u8], out: &mut [u8]) -> u64
    ensures value { result ≡ print_number (answer_of (display_answer tree.now) (length out.old)) }
    ensures out_after { out.new ≡ written_of (display_answer tree.now) out.old }
{
    ahb::answer_number(
        printer::display(tree, out),
        |length| ACCEPTED + length as u64,
    )
}
