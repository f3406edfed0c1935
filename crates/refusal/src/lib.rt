// Why an input is turned back. Each has a number, under which callers and the documents know it.

#![tactic(auto)]

ghost use Rattle.std.specs.Prelude.{◌≡◌};
ghost use Rattle.refusal.specs.Refusals.{number_of};

#[derive(Clone, Copy, Debug, PartialEq, Eq)]
pub enum Refusal {
    // A character that is no citation, operator, parenthesis or white space.
    Stray,
    // A citation that is never closed.
    Unterminated,
    // A citation of white space only.
    EmptyCondition,
    // Something else stands, or nothing, where an operand has to stand.
    MissingOperand,
    // One `)` too few or too many.
    Parentheses,
    // No expression.
    Empty,
    // A choice between what gates a place and what does not.
    ChoiceOverNeutral,
    // The answer to an evaluated citation failed.
    FailedAnswer,
    // The text does not begin with a status word.
    NoStatusWord,
    // The text or the value is too long.
    TooLong,
    // The text or the value is not UTF-8.
    NotUtf8,
    // Too many citations, or too many bytes in them.
    TooManyCitations,
    // Too many parentheses are open.
    TooDeep,
    // The result does not fit the caller's buffer.
    NoRoom,
    // The bytes are not a tree.
    NotATree,
    // The answers do not fit the citations.
    WrongAnswers,
    // The text names no Paket.
    NotAPaket,
}

impl From<Refusal> for u8 {
    ghost from_gives = { λ why number. number ≡ number_of why };

    fn from(why: Refusal) -> u8 {
        match why {
            Refusal::Stray => 1,
            Refusal::Unterminated => 2,
            Refusal::EmptyCondition => 3,
            Refusal::MissingOperand => 4,
            Refusal::Parentheses => 5,
            Refusal::Empty => 6,
            Refusal::ChoiceOverNeutral => 7,
            Refusal::FailedAnswer => 8,
            Refusal::NoStatusWord => 9,
            Refusal::TooLong => 10,
            Refusal::NotUtf8 => 11,
            Refusal::TooManyCitations => 12,
            Refusal::TooDeep => 13,
            Refusal::NoRoom => 14,
            Refusal::NotATree => 15,
            Refusal::WrongAnswers => 16,
            Refusal::NotAPaket => 17,
        }
    }
}
