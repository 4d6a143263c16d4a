// Sets of forms as the bits of a row, form b being bit b − 1. A row is a plain u16, as callers lend it and get it; a type for
// it would be put on and taken off at each call.
ghost use Rattle.std.specs.Prelude.{◌≡◌, ℕ, not, ◌&&◌, ◌||◌, ◌==◌, nat_le, min};
ghost use Rattle.rules.specs.Limits.{Within, max_forms};
ghost use Rattle.rules.specs.Tables.{in_row};
ghost use Rattle.books.specs.Views.{Forms, OfLabel};
ghost use Rattle.books.specs.Answers.{AnswersForms};

use rules::ROW_BITS;
use rules::limits::MAX_FORMS;

// The number past the last form, which stands for no form. A search runs up to it: the check follows `find` and `all` over
// a range that excludes its end, and not over one that includes it.
pub(crate) const NO_FORM: u8 = MAX_FORMS + 1;

// Every form that a row has a bit for.
pub(crate) const ALL_FORMS: u16 = 65535;

// The forms from 1 to `n`, as far as a row has bits.
pub(crate) fn up_to(n: u8) -> u16
    ensures { (b : ℕ) → in_row result b ≡ (nat_le 1 b && nat_le b (min n 16)) }
{
    ((1u32 << n.min(ROW_BITS)) - 1) as u16
}

// The row with form `b` besides. Each caller has it at hand as one that a label can have; a type for that would be made and
// taken apart at each call.
pub(crate) fn with_form(row: u16, b: u8) -> u16
    requires { Within max_forms b }
    ensures { (x : ℕ) → in_row result x ≡ (in_row row x || x == b) }
{
    row | (1u16 << (b - 1))
}

// The forms that two rows have in common.
pub(crate) fn both(row: u16, other: u16) -> u16
    ensures { (x : ℕ) → in_row result x ≡ (in_row row x && in_row other x) }
{
    row & other
}

// The forms of a row that another lacks.
pub(crate) fn without(row: u16, other: u16) -> u16
    ensures { (x : ℕ) → in_row result x ≡ (in_row row x && not (in_row other x)) }
{
    row ^ (row & other)
}

// The forms that a test picks, of all that a label can have.
pub(crate) fn forms_where<F: Fn(u8) -> bool>(picks: F) -> u16
    requires { (b : ℕ) → Within max_forms b → F.pre picks b }
    ensures { (P : Forms) → AnswersForms (F.post picks) P → OfLabel P → (b : ℕ) → in_row result b ≡ P b }
{
    let mut row = 0u16;
    for b in 1..=MAX_FORMS {
        if picks(b) {
            row = with_form(row, b);
        }
    }
    row
}
