// The static library of `ahbprint`, for the benchmark: its function under its C name, again, as in `ahb_c`.

#![tactic(auto)]

ghost use Rattle.std.specs.Prelude.{◌≡◌, length};
ghost use Rattle.grammar.specs.Outcome.{answer_of, written_of, display_answer};
ghost use Rattle.ahbprint.specs.Numbers.{print_number};

// Prints a tree. Accepted: 2^32, and the length of the print.
#[unsafe(no_mangle)]
pub extern "C" fn ahb_print(tree: &[u8], out: &mut [u8]) -> u64
    ensures value { result ≡ print_number (answer_of (display_answer tree.now) (length out.old)) }
    ensures out_after { out.new ≡ written_of (display_answer tree.now) out.old }
{
    ahbprint::ahb_print(tree, out)
}
