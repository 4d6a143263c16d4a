// A row taken into two numbers, and read back.
ghost use Rattle.std.specs.Prelude.{◌≡◌, ℕ, ◌≤◌, ◌&&◌, unwrap_or};
ghost use Rattle.rules.specs.Tables.{in_row};
ghost use Rattle.books.specs.Compact.{no_form, Next, FirstTwo, MendedRow, reads};

use crate::compact_row::CompactRow;
use crate::forms::{NO_FORM, both, up_to, with_form, without};
use crate::frame::Frame;
use crate::label_pair::LabelPair;
use crate::wording::Wording;
use rules::has_form;

// The first form of the row after `from`.
fn form_after(row: u16, from: u8) -> Option<u8>
    requires { from ≤ no_form }
    ensures { Next (in_row row) from (unwrap_or result no_form) }
{
    (from + 1..NO_FORM).find(|b| has_form(row, *b))
}

impl CompactRow {
    // The row's two numbers. This is no `From`, since a row may have more forms than they tell.
    pub(crate) fn of(row: u16) -> CompactRow
        ensures { FirstTwo (in_row row) result.first result.second }
    {
        let first = form_after(row, 0).unwrap_or(NO_FORM);
        let second = form_after(row, first).unwrap_or(NO_FORM);
        CompactRow { first, second }
    }

    // Those of the live forms that the row has.
    pub(crate) fn among(self, live: u16) -> u16
        ensures { (b : ℕ) → in_row result b ≡ (in_row live b && reads self.first self.second b) }
    {
        let tail = without(live, up_to(self.second - 1));
        if has_form(live, self.first) {
            with_form(tail, self.first)
        } else {
            tail
        }
    }

    // The row of a form, mended: read over the live forms, cut to the given row, and kept as its two first forms. (Frame and
    // labels are two arguments for the reason that stands at `Store::can_hold`.)
    pub(crate) fn mended(self, frame: &Frame, labels: LabelPair, form: u8, given: u16) -> CompactRow
        ensures { MendedRow frame.now labels form self given result }
    {
        let wording = Wording {
            label: labels.first,
            form,
        };
        if !frame.live(wording) {
            return CompactRow::of(0);
        }
        CompactRow::of(both(self.among(frame.forms(labels.second)), given))
    }
}
