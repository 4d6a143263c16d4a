// The rows of the compact book: it serves rule 1 with two numbers a row.
ghost use Rattle.std.specs.Prelude.{◌≡◌, ℕ, ◌<◌, Bool, T, Decides};
ghost use Rattle.rules.specs.Limits.{Within, max_forms};
ghost use Rattle.rules.specs.Tables.{in_row};
ghost use Rattle.books.specs.declared.label_pair.LabelPair.{LabelPair};
ghost use Rattle.books.specs.Frames.{all_rows, book_view};
ghost use Rattle.books.specs.Compact.{Tailed, Tails, RowHeld, Exact, KeptFor, pairs, uncut, is_pair, Mending};
ghost use Rattle.books.specs.Answers.{AnswersPairs};
ghost use Rattle.books.specs.Tails.{tails_closed, tails_common, tails_fewer, exact_none};

use crate::book::Book;
use crate::compact_row::CompactRow;
use crate::forms::{ALL_FORMS, NO_FORM, both, without};
use crate::frame::Frame;
use crate::framing::ROWS;
use crate::label_pair::LabelPair;
use crate::rows::Rows;
use crate::store::{Serves, Store};
use crate::stored::Stored;
use crate::wording::Wording;
use rules::limits::MAX_FORMS;
use rules::{Greatest, Rule};

// The rows of all tables, two bytes each.
type CompactRows = Rows<CompactRow>;

/// The book for rule 1 that keeps two numbers a row.
pub type CompactBook = Stored<Greatest, CompactRows>;

// Rows that cut nothing off.
const UNCUT: [u16; 16] = [ALL_FORMS; 16];

// Whether a row of live forms has, from its second form on, all of them: then two numbers bring back no form besides.
fn tailed(row: u16, live: u16) -> bool
    ensures { Decides result (Tailed (in_row live) (in_row row)) }
{
    without(CompactRow::of(row).among(live), row) == 0
}

// Whether the row of a form of the first label, cut to the live forms of the second, can be held. The form is the number
// of a loop; a type for forms from 1 to 16 would be made and taken apart in each turn. Frame and labels are two arguments
// here and in `mend` for the reason that stands at `Store::can_hold`.
fn row_held(frame: &Frame, labels: LabelPair, form: u8, rows: &[u16; 16]) -> bool
    requires { Within max_forms form }
    ensures { Decides result (RowHeld frame.now labels.first labels.second rows.now form) }
{
    let live = frame.forms(labels.second);
    let wording = Wording {
        label: labels.first,
        form,
    };
    !frame.live(wording) || tailed(both(live, rows[usize::from(form) - 1]), live)
}

impl CompactRows {
    // Mends the table of two labels, with given rows to keep to.
    fn mend(&mut self, frame: &Frame, labels: LabelPair, given: &[u16; 16])
        ensures { Mending frame.now given.now self.old self.new (is_pair labels.first labels.second) }
    {
        self.rewrite(labels, |form, row| {
            row.mended(frame, labels, form, given[usize::from(form) - 1])
        });
    }

    // Mends those tables that a test picks.
    fn mend_where<F: Fn(LabelPair) -> bool>(&mut self, frame: &Frame, picks: F)
        requires { (labels : LabelPair) → F.pre picks labels }
        ensures { (mended : ℕ → ℕ → Bool) → AnswersPairs (F.post picks) mended → Mending frame.now uncut self.old self.new mended }
    {
        for second in 2..=frame.count {
            for first in 1..second {
                let labels = LabelPair { first, second };
                if picks(labels) {
                    self.mend(frame, labels, &UNCUT);
                }
            }
        }
    }
}

impl CompactBook {
    /// The number of its rule, for patterns and other constants: `RULE` of `Book` is given by one impl for all stores, and a
    /// constant of such an impl can stand in neither.
    pub const RULE: u16 = Greatest::NUMBER;

    /// The same number by a call, which promises that it is the one that laws speak of.
    pub fn rule_number() -> u16
        ensures { result ≡ ⟦<Self as Book>⟧.RULE }
    {
        Self::RULE
    }

    /// The two numbers that are kept for a wording towards a label after its own: the first form of that label that is
    /// permitted with it, and the second, each 17 where there is none.
    pub fn kept(&self, w: Wording, j: u8) -> Option<(u8, u8)>
        ensures { KeptFor (book_view self.now.frame (pairs self.now.rows)) w.label w.form j result }
    {
        let labels = self.frame.pair(w.label, j)?;
        if !(1..=MAX_FORMS).contains(&w.form) {
            return None;
        }
        let row = self.rows.rows[labels.row(w.form)];
        Some((row.first, row.second))
    }
}

impl Store for CompactRows {
    ghost cell = { pairs };

    ghost holds = { Tails };

    // The stored numbers are the first two permitted forms of their row.
    ghost keeps = { Exact };

    ghost keeps_none = { exact_none };

    ghost holds_common = { tails_common };

    ghost holds_fewer = { tails_fewer };

    fn every() -> Self {
        Rows {
            rows: [CompactRow::of(ALL_FORMS); ROWS],
        }
    }

    fn all(frame: &Frame) -> Self {
        let mut rows = Self::every();
        rows.mend_where(frame, |_| true);
        rows
    }

    fn among(&self, n: usize, live: u16) -> u16 {
        self.rows[n].among(live)
    }

    // A form of label i is a column in the tables with the labels before it, and a row in those with the labels after it.
    fn follow(&mut self, frame: &Frame, i: u8) {
        self.mend_where(frame, |labels| labels.second == i || labels.first == i);
    }

    fn can_hold(frame: &Frame, labels: LabelPair, rows: &[u16; 16]) -> bool {
        (1..NO_FORM).all(
            |form|
                requires { Within max_forms form }
                ensures { Decides result (RowHeld frame.entry.now labels.first labels.second rows.entry.now form) }
            { row_held(frame, labels, form, rows) },
        )
    }

    fn narrow(&mut self, frame: &Frame, labels: LabelPair, rows: &[u16; 16]) {
        self.mend(frame, labels, rows);
    }
}

impl Serves<Greatest> for CompactRows {
    ghost holds_closed = { tails_closed };
}
