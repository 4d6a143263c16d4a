ghost use Rattle.std.specs.Prelude.{◌≡◌};
ghost use Rattle.rules.specs.Refusals.{refusal_number, returned_number};

/// Why a call of the product was refused. A case keeps its number for good; 0 is left for a call that was done.
#[derive(Clone, Copy, PartialEq, Eq, Debug)]
pub enum Refusal {
    /// More labels than a panel can have, a size that no label can have, or more tables than a sheet can have.
    OutsideLimits = 1,
    /// A label that the panel lacks, or two labels of which the first is not the lower.
    NoLabel = 2,
    /// A form that its label lacks.
    NoForm = 3,
    /// Too few or too many rows; a row with a form that the second label lacks; in a narrowing, a row other than 0 for a
    /// form that the first label lacks; in a sheet, a cell other than 0 and 1.
    NoTable = 4,
    /// The table is not closed under the rule.
    NotClosed = 5,
    /// Nothing fits: the panel has no fitting.
    NoFitting = 6,
    /// The form is not offered.
    NotOffered = 7,
    /// No label is left to pick for.
    AllPicked = 8,
    /// There is no pick to take back.
    NoPick = 9,
    /// The lent buffer has no room for all bytes that are due.
    ShortBuffer = 10,
    /// The book has no way to hold the table.
    NotHeld = 11,
    /// The bytes are laid out as no sheet is.
    NoSheet = 12,
    /// The sheet is not for the book's rule, or a head to be written has a rule number outside 1 to 999.
    WrongRule = 13,
}

// The number that a maker sees.
impl From<Refusal> for u8 {
    ghost from_gives = { λ refusal number. number ≡ refusal_number refusal };

    fn from(refusal: Refusal) -> u8 {
        refusal as u8
    }
}

/// The number that a call returns to a host: 0 where it was done, or that of its refusal. This is no `From`, since neither
/// a Result nor a u8 is a type of this crate.
pub fn number_of<T>(answer: &Result<T, Refusal>) -> u8
    ensures { result ≡ returned_number answer.now }
{
    match answer {
        Ok(_) => 0,
        Err(refusal) => u8::from(*refusal),
    }
}
