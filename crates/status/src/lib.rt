// The status words, Muss, Soll, Kann, X, M, S and K, and the code of each.

#![tactic(auto)]

ghost use Rattle.std.specs.Prelude.{◌≡◌};
ghost use Rattle.status.specs.Status.{code_of, word_of, kind_of_word, is_receiver_checkable};

use refusal::Refusal;

#[derive(Clone, Copy, Debug, PartialEq, Eq)]
pub enum StatusKind {
    // The information is always given.
    Muss,
    // Given for reasons of business, as the sender decides.
    Soll,
    // Given as the sender likes.
    Kann,
    // Operand: used as the segment's status says.
    X,
    // Operand: Muss under a condition.
    M,
    // Operand: Soll under a condition.
    S,
    // Operand: Kann under a condition.
    K,
}

impl From<StatusKind> for u8 {
    ghost from_gives = { λ kind code. code ≡ code_of kind };

    fn from(kind: StatusKind) -> u8 {
        kind.code()
    }
}

impl StatusKind {
    pub const MUSS: u8 = 0;

    pub const SOLL: u8 = 1;

    pub const KANN: u8 = 2;

    pub const X_CODE: u8 = 3;

    pub const M_CODE: u8 = 4;

    pub const S_CODE: u8 = 5;

    pub const K_CODE: u8 = 6;

    pub fn code(self) -> u8
        ensures { result ≡ code_of self }
    {
        match self {
            StatusKind::Muss => StatusKind::MUSS,
            StatusKind::Soll => StatusKind::SOLL,
            StatusKind::Kann => StatusKind::KANN,
            StatusKind::X => StatusKind::X_CODE,
            StatusKind::M => StatusKind::M_CODE,
            StatusKind::S => StatusKind::S_CODE,
            StatusKind::K => StatusKind::K_CODE,
        }
    }

    // All kinds, in the order of their codes.
    pub const ALL: [StatusKind; 7] = [
        StatusKind::Muss,
        StatusKind::Soll,
        StatusKind::Kann,
        StatusKind::X,
        StatusKind::M,
        StatusKind::S,
        StatusKind::K,
    ];

    // The word as printed.
    pub fn as_str(self) -> &'static str
        ensures { result.now ≡ word_of self }
    {
        match self {
            StatusKind::Muss => "Muss",
            StatusKind::Soll => "Soll",
            StatusKind::Kann => "Kann",
            StatusKind::X => "X",
            StatusKind::M => "M",
            StatusKind::S => "S",
            StatusKind::K => "K",
        }
    }

    // The kind that a word names: the first with this word.
    pub fn from_word(word: &[u8]) -> Result<StatusKind, Refusal>
        ensures { result ≡ kind_of_word word.now }
    {
        for kind in StatusKind::ALL {
            if text::same_bytes(word, kind.as_str().as_bytes()) {
                return Ok(kind);
            }
        }
        Err(Refusal::NoStatusWord)
    }

    // Whether a receiver may check the status.
    pub fn is_receiver_checkable(self) -> bool
        ensures { result ≡ is_receiver_checkable self }
    {
        matches!(self, StatusKind::Muss | StatusKind::X | StatusKind::M)
    }
}
