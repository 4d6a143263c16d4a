ghost use Rattle.std.specs.Prelude.{◌≡◌, ℕ, ◌<◌, Bool, ◌&&◌, T, Decides};
ghost use Rattle.rules.specs.Limits.{Within, max_forms};
ghost use Rattle.rules.specs.Tables.{in_row, permits};
ghost use Rattle.books.specs.declared.frame.Frame.{Frame};
ghost use Rattle.books.specs.Changes.{Ordered};
ghost use Rattle.books.specs.Holding.{Holds, HoldsClosed, HoldsCommon, HoldsFewer};
ghost use Rattle.books.specs.Frames.{FrameStruck, all_rows};
ghost use Rattle.books.specs.Stores.{HoldsRows, Whole, Unmoved, RowsNarrowed};

use crate::frame::Frame;
use crate::label_pair::LabelPair;
use rules::{Rule, Tested};

/// How a book keeps the rows of all its tables, each at its place.
pub trait Store: Sized + Drop {
    /// cell s n b: the row at n has form b, as far as b is live.
    ghost cell: { Self → ℕ → ℕ → Bool };

    /// The tables that it can hold.
    ghost holds: { Holds };

    /// What it keeps true of its rows, with the frame of its book, from call to call.
    ghost keeps: { Frame → Self → Type 0 };

    /// Rows with every form, for a book of no labels.
    fn every() -> Self
        ensures { (n b : ℕ) → n < all_rows → Within max_forms b → T (cell result n b) };

    /// Rows with every live form of the frame.
    fn all(frame: &Frame) -> Self
        ensures keeps { keeps frame.now result }
        ensures whole { Whole frame.now (cell result) };

    /// Those of the live forms that the row at `n` has.
    fn among(&self, n: usize, live: u16) -> u16
        requires { n < all_rows }
        ensures { (b : ℕ) → in_row result b ≡ (in_row live b && cell self.now n b) };

    /// Follows the frame, where a form of label `i` was struck.
    fn follow(&mut self, frame: &Frame, i: u8)
        ensures keeps { (f : Frame) (a : ℕ) → FrameStruck f i a frame.now → keeps f self.old → keeps frame.now self.new }
        ensures unmoved { Unmoved frame.now (cell self.old) (cell self.new) };

    /// Whether the rows, cut to the live forms of the two labels, can be held. Frame and labels are two arguments: a struct of
    /// both would hold a borrow of the frame, and each clause would reach frame and labels through it; the fact that ties them
    /// is asked once, by `narrow`.
    fn can_hold(frame: &Frame, labels: LabelPair, rows: &[u16; 16]) -> bool
        ensures { Decides result (HoldsRows holds frame.now labels.first labels.second rows.now) };

    /// Takes from the rows of the two labels the forms that the given rows lack.
    fn narrow(&mut self, frame: &Frame, labels: LabelPair, rows: &[u16; 16])
        requires labels { Ordered frame.now.count labels.first labels.second }
        requires held { HoldsRows holds frame.now labels.first labels.second rows.now }
        ensures keeps { keeps frame.now self.old → keeps frame.now self.new }
        ensures narrowed { RowsNarrowed frame.now labels.first labels.second (permits rows.now) (cell self.old) (cell self.new) };

    /// With a frame of no labels there is nothing to keep.
    ghost keeps_none: { (f : Frame) (s : Self) → f.count ≡ 0 → keeps f s };

    ghost holds_common: { HoldsCommon holds };

    ghost holds_fewer: { HoldsFewer holds };
}

/// A store that holds what the rule `R` needs of its book. It stands apart from `Store`, so that the store of the full book is
/// one for every rule, and a maker's struct may hold a `FullBook<R>`.
pub trait Serves<R: Tested>: Store {
    ghost holds_closed: { HoldsClosed R.Rule.voted Self.Store.holds };
}
