ghost use Rattle.std.specs.Prelude.{◌≡◌, ℕ, ◌<◌, ◌≤◌, length, slice_index_or};
ghost use Rattle.rules.specs.Limits.{max_labels};
ghost use Rattle.books.specs.Sizing.{no_label};

use crate::label::Label;

/// What every book keeps alike: its labels, and how many of the sixteen it has. The count stands beside the array: there
/// is no heap for a Vec, and a list of fixed room (`arrayvec`) is cloned by a call that can fail, where a strike cannot.
#[derive(Drop)]
pub struct Frame {
    pub(crate) count: u8,
    pub(crate) labels: [Label; 16],
    ghost few: { count ≤ max_labels },
    ghost sixteen: { length labels ≡ 16 },
    ghost sized: { (k : ℕ) → k < count → 1 ≤ (slice_index_or labels k no_label).size },
}
