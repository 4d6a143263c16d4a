ghost use Rattle.rules.specs.Limits.{Within};

/// A row in two numbers: its first form and its second, each 17 where there is none. Read back over the live forms, it has
/// the first, and every live form from the second on. No Option stands here: a row has two bytes, and 17 is promised.
#[derive(Clone, Copy)]
pub struct CompactRow {
    pub(crate) first: u8,
    pub(crate) second: u8,
    ghost one: { Within 17 first },
    ghost two: { Within 17 second },
}
