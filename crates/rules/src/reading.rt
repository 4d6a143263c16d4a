// What rows permit, and whether they are a table.
ghost use Rattle.std.specs.Prelude.{◌≡◌, ◌/◌, ◌^◌, ◌≤◌, ◌↔◌, false, true, None, Some, MatchOption, Decides, IsTrue, EachIndex, slice_index};
ghost use Rattle.rules.specs.Tables.{in_row, permits, EndsAt, IsTable};
ghost use Rattle.rules.specs.Lending.{pairs_of, Has, Checked};
ghost use Rattle.rules.specs.declared.pair.Pair.{Pair};

use crate::lent::Lent;
use crate::limits::MAX_FORMS;
use crate::pair::Pair;
use crate::refusal::Refusal;
use crate::table::Table;

/// The bits of a row. They stay sixteen, whatever the limit on forms.
pub const ROW_BITS: u8 = 16;

/// Whether a row has form `b` of the second label.
pub fn has_form(row: u16, b: u8) -> bool
    ensures { result ≡ in_row row b }
{
    if b == 0 || b > ROW_BITS {
        return false;
    }
    (row >> (b - 1)) & 1 == 1
}

/// Whether the rows permit the pair.
pub fn has_pair(rows: &[u16], pair: Pair) -> bool
    ensures { result ≡ permits rows.now pair.0 pair.1 }
{
    let Pair(a, b) = pair;
    if a == 0 || a as usize > rows.len() {
        return false;
    }
    has_form(rows[a as usize - 1], b)
}

// Whether the row has no form after `n`.
fn ends_at(row: u16, n: u8) -> bool
    ensures { IsTrue result ↔ EndsAt n row }
{
    // Sixteen bits cannot be shifted by more than sixteen.
    u32::from(row) >> n.min(ROW_BITS) == 0
}

/// Whether no row has a form after `n`.
pub fn all_end_at(rows: &[u16], n: u8) -> bool
    ensures { IsTrue result ↔ EachIndex rows.now (λ k. EndsAt n (slice_index rows.now k)) }
{
    rows.iter().all(|row| ends_at(*row, n))
}

impl Lent<'_> {
    /// Whether the rows are a table for a second label of that size.
    pub fn is_table(self) -> bool
        ensures { Decides result (IsTable self.entry.rows.now self.entry.size) }
    {
        (1..=usize::from(MAX_FORMS)).contains(&self.rows.len())
            && (1..=MAX_FORMS).contains(&self.size)
            && all_end_at(self.rows, self.size)
    }
}

impl<'a> TryFrom<Lent<'a>> for Table<'a> {
    type Error = Refusal;

    ghost try_from_gives = { Checked };

    fn try_from(lent: Lent<'a>) -> Result<Self, Refusal> {
        if lent.is_table() {
            Ok(Table { lent })
        } else {
            Err(Refusal::NoTable)
        }
    }
}

impl Table<'_> {
    /// Whether the pair is one of the table.
    pub fn has(&self, pair: Pair) -> bool
        ensures { result ≡ pairs_of self.now pair.0 pair.1 }
    {
        has_pair(self.lent.rows, pair)
    }

    // An answer to a pair of the table, if any has one. They are asked row by row and form by form.
    pub(crate) fn find_map<X, F: Fn(Pair) -> Option<X>>(self, answer: F) -> Option<X>
        requires { (p : Pair) → Has (pairs_of self) p → F.pre answer p }
        ensures { MatchOption result
            ((p : Pair) → Has (pairs_of self.entry) p → F.post answer p None)
            (λ x. (p : Pair) × (Has (pairs_of self.entry) p × F.post answer p (Some x))) }
    {
        for a in 1..=MAX_FORMS {
            for b in 1..=MAX_FORMS {
                if self.has(Pair(a, b))
                    && let Some(found) = answer(Pair(a, b))
                {
                    return Some(found);
                }
            }
        }
        None
    }

    // A pair of the table that is picked, if any is.
    pub(crate) fn find<F: Fn(Pair) -> bool>(self, picks: F) -> Option<Pair>
        requires { (p : Pair) → Has (pairs_of self) p → F.pre picks p }
        ensures { MatchOption result
            ((p : Pair) → Has (pairs_of self.entry) p → F.post picks p false)
            (λ p. Has (pairs_of self.entry) p × F.post picks p true) }
    {
        self.find_map(
            move |pair|
                requires { F.pre picks pair }
                ensures { MatchOption result (F.post picks pair false) (λ p. (p ≡ pair) × F.post picks pair true) }
            { picks(pair).then_some(pair) },
        )
    }
}
