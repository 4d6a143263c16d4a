// The rows of the full book: it serves any rule and holds every table.
ghost use Rattle.std.specs.Prelude.{◌≡◌, ℕ, ◌+◌, ◌-◌, ◌<◌, ◌≤◌, ◌&&◌, T, ◌⊎◌, slice_index};
ghost use Rattle.std.proofs.Common.{rules};
ghost use Rattle.rules.specs.Limits.{Within, max_forms};
ghost use Rattle.rules.specs.Tables.{Table, in_row};
ghost use Rattle.books.specs.Views.{Forms};
ghost use Rattle.books.specs.Frames.{all_rows, table_at, row_at};
ghost use Rattle.books.specs.Full.{bits};

use crate::book::Book;
use crate::forms::{ALL_FORMS, both};
use crate::frame::Frame;
use crate::framing::ROWS;
use crate::label_pair::LabelPair;
use crate::rows::Rows;
use crate::store::{Serves, Store};
use crate::stored::Stored;
use rules::{Rule, Tested};

// The rows of all tables, a bit for each form. Bits of forms that are not live say nothing.
type FullRows = Rows<u16>;

/// The book for the rule `R` that holds every table.
pub type FullBook<R> = Stored<R, FullRows>;

impl FullRows {
    // Takes from the rows of the two labels the forms that the given rows lack, live or not, and from no others.
    fn cut(&mut self, labels: LabelPair, rows: &[u16; 16])
        ensures inside { (a b : ℕ) → Within max_forms a → bits self.new (row_at labels.first labels.second a) b
            ≡ (bits self.old (row_at labels.first labels.second a) b && in_row (slice_index rows.now (a - 1)) b) }
        ensures outside { (n b : ℕ) → (n < table_at labels.first labels.second) ⊎ (table_at labels.first labels.second + 16 ≤ n)
            → bits self.new n b ≡ bits self.old n b }
    {
        self.rewrite(labels, |form, row| both(row, rows[usize::from(form) - 1]));
    }
}

impl Store for FullRows {
    ghost cell = { bits };

    // Every table can be held.
    ghost holds = { λ _ _ _. Unit {0} };

    ghost keeps = { λ _ _. Unit {0} };

    ghost keeps_none = { Prim.search rules };

    ghost holds_common = { Prim.search rules };

    ghost holds_fewer = { Prim.search rules };

    fn every() -> Self {
        Rows {
            rows: [ALL_FORMS; ROWS],
        }
    }

    fn all(_frame: &Frame) -> Self {
        Self::every()
    }

    fn among(&self, n: usize, live: u16) -> u16 {
        both(live, self.rows[n])
    }

    fn follow(&mut self, _frame: &Frame, _i: u8) {}

    fn can_hold(_frame: &Frame, _labels: LabelPair, _rows: &[u16; 16]) -> bool {
        true
    }

    fn narrow(&mut self, _frame: &Frame, labels: LabelPair, rows: &[u16; 16]) {
        self.cut(labels, rows);
    }
}

impl<R: Tested> Serves<R> for FullRows {
    ghost holds_closed = { Prim.search rules };
}

impl<R: Tested> FullBook<R> {
    /// The law that makes it the full book: it holds every table, so that no narrowing is refused with 11.
    pub fn holds_every_table()
        ensures { (L M : Forms) (t : Table) → ⟦<Self as Book>⟧.holds L M t }
    {}
}
