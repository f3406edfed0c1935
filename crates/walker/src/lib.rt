// The walker over a lent text, and functions with plain parameters that do its steps: the place one character on, and the character at a place.

#![tactic(auto)]

ghost use Rattle.std.specs.Prelude.{◌≡◌};
ghost use Rattle.utf8.specs.Utf8.{step_at};
ghost use Rattle.walker.specs.Next.{next_at};

use utf8::Step;
pub use utf8::Walker;

// The place after the character at `at`; `at` itself where none stands.
pub fn next_at(text: &[u8], at: usize) -> usize
    ensures { result ≡ next_at text.now at }
{
    match utf8::step_at(text, at) {
        Step::Char { code: _, width } => at + width,
        Step::Bad => at,
        Step::End => at,
    }
}

// The walker one character on; it stays where no character stands.
pub fn next(walker: Walker) -> Walker
    ensures { (result.text ≡ walker.entry.text) × (result.at ≡ next_at walker.entry.text.now walker.entry.at) }
{
    Walker::new(walker.text, next_at(walker.text, walker.at))
}

// The character at a place, by a walker: who calls this holds no walker.
pub fn step_from(text: &[u8], at: usize) -> Step
    ensures { result ≡ step_at text.now at }
{
    Walker::new(text, at).step()
}
