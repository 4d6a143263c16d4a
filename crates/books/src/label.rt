ghost use Rattle.std.specs.Prelude.{ℕ, ◌≤◌, T};
ghost use Rattle.rules.specs.Limits.{max_forms};
ghost use Rattle.rules.specs.Tables.{in_row};

/// How many forms a label has and, as the bits of a row, which of them are live.
#[derive(Clone, Copy)]
pub struct Label {
    pub(crate) size: u8,
    pub(crate) live: u16,
    ghost sized: { size ≤ max_forms },
    ghost living: { (a : ℕ) → T (in_row live a) → a ≤ size },
}
