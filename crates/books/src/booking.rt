// The calls of a book, alike for every store of rows.
ghost use Rattle.std.specs.Prelude.{◌≡◌, ℕ, ◌≤◌, refl};
ghost use Rattle.rules.specs.Tables.{in_row};
ghost use Rattle.books.specs.Frames.{book_view};
ghost use Rattle.books.specs.Stores.{Whole};
ghost use Rattle.books.specs.Linked.{orderly};

use crate::book::Book;
use crate::forms::{forms_where, with_form};
use crate::frame::Frame;
use crate::store::{Serves, Store};
use crate::stored::Stored;
use crate::table::fits_sizes;
use crate::wording::Wording;
use rules::{Refusal, Rule, Tested, has_form};
use std::marker::PhantomData;

impl<R: Tested, S: Store> Stored<R, S> {
    // A book with these labels and every pair of live forms.
    fn of(frame: Frame) -> Self
        ensures frame { result.frame ≡ frame }
        ensures whole { Whole result.frame (S.cell result.rows) }
    {
        let rows = S::all(&frame);
        Stored {
            frame,
            rows,
            rule: PhantomData,
        }
    }

    // The partners of a form in label `j`, where its own label does not come after `j`.
    fn forward(&self, w: Wording, j: u8) -> u16
        requires { w.label ≤ j }
        ensures { (b : ℕ) → in_row result b ≡ (book_view self.now.frame (S.cell self.now.rows)).permitted w.label w.form j b }
    {
        if !self.frame.live(w) {
            return 0;
        }
        if w.label == j {
            return with_form(0, w.form);
        }
        match self.frame.pair(w.label, j) {
            Some(labels) => self.rows.among(labels.row(w.form), self.frame.forms(j)),
            None => 0,
        }
    }
}

impl<R: Tested, S: Serves<R>> Book for Stored<R, S> {
    type R = R;

    const RULE: u16 = R::NUMBER;

    ghost RULE = { R.Rule.NUMBER };

    ghost serves = { refl };

    ghost view = { λ s. book_view s.frame (S.cell s.rows) };

    ghost holds = { S.holds };

    ghost limits = { λ s. orderly s.frame (S.cell s.rows) };

    ghost holds_closed = { S.holds_closed };

    ghost holds_common = { S.holds_common };

    ghost holds_fewer = { S.holds_fewer };

    fn new() -> Self {
        Stored {
            frame: Frame::none(),
            rows: S::every(),
            rule: PhantomData,
        }
    }

    fn empty(&mut self) {
        self.frame = Frame::none();
    }

    fn open(&mut self, sizes: &[u8]) -> Result<(), Refusal> {
        let frame = Frame::try_from(sizes)?;
        *self = Self::of(frame);
        Ok(())
    }

    fn labels(&self) -> u8 {
        self.frame.count
    }

    fn size(&self, i: u8) -> u8 {
        self.frame.size(i)
    }

    fn live(&self, w: Wording) -> bool {
        self.frame.live(w)
    }

    fn permitted(&self, one: Wording, two: Wording) -> bool {
        if one.label <= two.label {
            has_form(self.forward(one, two.label), two.form)
        } else {
            has_form(self.forward(two, one.label), one.form)
        }
    }

    fn partners(&self, w: Wording, j: u8) -> u16 {
        if w.label <= j {
            self.forward(w, j)
        } else {
            forms_where(|form| has_form(self.forward(Wording { label: j, form }, w.label), w.form))
        }
    }

    fn strike(&mut self, w: Wording) -> Result<(), Refusal> {
        self.frame.can_strike(w)?;
        self.frame.strike(w);
        self.rows.follow(&self.frame, w.label);
        Ok(())
    }

    fn narrow(&mut self, i: u8, j: u8, rows: [u16; 16]) -> Result<(), Refusal> {
        let labels = self.frame.pair(i, j).ok_or(Refusal::NoLabel)?;
        if !fits_sizes(&rows, self.frame.size(i), self.frame.size(j)) {
            return Err(Refusal::NoTable);
        }
        if !S::can_hold(&self.frame, labels, &rows) {
            return Err(Refusal::NotHeld);
        }
        self.rows.narrow(&self.frame, labels, &rows);
        Ok(())
    }
}
