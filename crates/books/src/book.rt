ghost use Rattle.std.specs.Prelude.{◌≡◌, ℕ};
ghost use Rattle.rules.specs.Tables.{in_row};
ghost use Rattle.books.specs.Views.{View, Orderly};
ghost use Rattle.books.specs.Holding.{Holds, HoldsClosed, HoldsCommon, HoldsFewer};
ghost use Rattle.books.specs.Outcomes.{Opening, Striking, Narrowing};

use crate::forms::forms_where;
use crate::wording::Wording;
use rules::{Refusal, Rule, Tested};

/// A store for the forms and pairs of a panel, with its meaning and the laws that it keeps.
pub trait Book: Sized {
    /// The rule that the book serves, with its number, vote and test.
    type R: Tested;

    /// The number of the rule. It has no value here, since the checker takes none beside a ghost member of the same name.
    const RULE: u16;

    /// The same number, for laws and contracts: the checker refuses a book whose two differ.
    ghost RULE: { ℕ };

    /// The panel as the book has it.
    ghost view: { Self → View };

    /// The tables that the book can hold. It is of the type, so it looks at live forms and the table alone.
    ghost holds: { Holds };

    /// A book of no labels.
    fn new() -> Self
        ensures { (view result).labels ≡ 0 };

    /// Leaves no labels.
    fn empty(&mut self)
        ensures { (view self.new).labels ≡ 0 };

    /// Puts a panel of these sizes in the place of the old one: all forms live, all pairs permitted.
    fn open(&mut self, sizes: &[u8]) -> Result<(), Refusal>
        ensures { Opening view self.old sizes.now self.new result };

    fn labels(&self) -> u8
        ensures { result ≡ (view self.now).labels };

    /// How many forms a label has, live or not. The answer is 0, and no Option, where the panel has no such label: the law
    /// `limits` promises it.
    fn size(&self, i: u8) -> u8
        ensures { result ≡ (view self.now).size i };

    fn live(&self, w: Wording) -> bool
        ensures { result ≡ (view self.now).live w.label w.form };

    fn permitted(&self, one: Wording, two: Wording) -> bool
        ensures { result ≡ (view self.now).permitted one.label one.form two.label two.form };

    /// The forms of label `j` that are permitted with the wording, as the bits of a row.
    fn partners(&self, w: Wording, j: u8) -> u16
        ensures { (b : ℕ) → in_row result b ≡ (view self.now).permitted w.label w.form j b }
    {
        forms_where(|form| self.permitted(w, Wording { label: j, form }))
    }

    /// Makes a form not live.
    fn strike(&mut self, w: Wording) -> Result<(), Refusal>
        ensures { Striking view self.old w.label w.form self.new result };

    /// Narrows the pairs of labels `i` and `j` to those that the rows permit too.
    fn narrow(&mut self, i: u8, j: u8, rows: [u16; 16]) -> Result<(), Refusal>
        ensures { Narrowing view holds self.old i j rows self.new result };

    ghost serves: { RULE ≡ Self.R.Rule.NUMBER };

    ghost limits: { (s : Self) → Orderly (view s) };

    ghost holds_closed: { HoldsClosed Self.R.Rule.voted holds };

    ghost holds_common: { HoldsCommon holds };

    ghost holds_fewer: { HoldsFewer holds };
}
