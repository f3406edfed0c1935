// What reads as an expression, how it prints, and its bytes as a tree: definitions and the theorems about them. Of code the kinds of nodes and the limits alone.

#![tactic(auto)]

ghost use Rattle.std.specs.Prelude.{◌≡◌};
ghost use Rattle.grammar.specs.Kinds.{kind_number, numbered};

// Most citations, and most bytes in them.
pub const CITATION_LIMIT: usize = 256;

pub const CITED_LIMIT: usize = 2048;

// What a node is: a citation, or an inner node.
#[derive(Clone, Copy, Debug, PartialEq, Eq)]
pub enum NodeKind {
    Citation,
    Then,
    And,
    Or,
    Xor,
}

// The number that stands for the kind in a node's row.
impl From<NodeKind> for usize {
    ghost from_gives = { λ kind number. number ≡ kind_number kind };

    #[tactic(auto, unfolding(crate::specs::Kinds::kind_number, crate::specs::Rows::op_kind))]
    fn from(kind: NodeKind) -> usize {
        match kind {
            NodeKind::Citation => 0,
            NodeKind::Then => 1,
            NodeKind::And => 2,
            NodeKind::Or => 3,
            NodeKind::Xor => 4,
        }
    }
}

// The kind for which a number stands; no row of a tree has one over 4.
impl From<usize> for NodeKind {
    ghost from_gives = { λ number kind. kind ≡ numbered number };

    #[tactic(auto, using(crate::specs::Kinds::numbered_over), unfolding(crate::specs::Kinds::numbered))]
    fn from(number: usize) -> NodeKind {
        match number {
            0 => NodeKind::Citation,
            1 => NodeKind::Then,
            2 => NodeKind::And,
            3 => NodeKind::Or,
            _ => NodeKind::Xor,
        }
    }
}
