ghost use Rattle.std.specs.Prelude.{◌≡◌, ℕ, ◌+◌, ◌<◌, ◌≤◌, ◌⊎◌, slice_index_or};
ghost use Rattle.rules.specs.Limits.{Within, max_forms};
ghost use Rattle.books.specs.Frames.{table_at, row_at};

use crate::label_pair::LabelPair;
use crate::rows::Rows;

impl<T: Copy> Rows<T> {
    // Writes the sixteen rows of two labels anew, each from its form and what it was.
    pub(crate) fn rewrite<F: Fn(u8, T) -> T>(&mut self, labels: LabelPair, anew: F)
        requires { (a : ℕ) (row : T) → Within max_forms a → F.pre anew a row }
        ensures inside { (a : ℕ) (d : T) → Within max_forms a
            → F.post anew a (slice_index_or self.old.rows (row_at labels.first labels.second a) d) (slice_index_or self.new.rows (row_at labels.first labels.second a) d) }
        ensures outside { (n : ℕ) (d : T) → (n < table_at labels.first labels.second) ⊎ (table_at labels.first labels.second + 16 ≤ n)
            → slice_index_or self.new.rows n d ≡ slice_index_or self.old.rows n d }
    {
        let at = labels.table();
        // A part of the array itself cannot be lent for a `T` of any type.
        let rows = &mut self.rows[..];
        for (k, row) in rows[at..at + 16].iter_mut().enumerate() {
            *row = anew(k as u8 + 1, *row);
        }
    }
}
