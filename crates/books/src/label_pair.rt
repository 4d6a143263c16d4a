ghost use Rattle.rules.specs.Limits.{max_labels};
ghost use Rattle.books.specs.Changes.{Ordered};

/// Two labels that a table is for, the lower one first.
#[derive(Clone, Copy)]
pub struct LabelPair {
    pub(crate) first: u8,
    pub(crate) second: u8,
    ghost ordered: { Ordered max_labels first second },
}
