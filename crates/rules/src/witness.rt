use crate::pair::Pair;

/// Three pairs of a table, and the pair they vote for, which is none of the table.
#[derive(Clone, Copy, PartialEq, Eq, Debug)]
pub struct Witness {
    pub one: Pair,
    pub two: Pair,
    pub three: Pair,
    pub vote: Pair,
}
