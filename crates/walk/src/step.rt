ghost use Rattle.walk.specs.Printing.{answer_text};

use crate::samples::{WITH_PARTNERS, WITHOUT_PARTNER};
use books::Wording;
use listing::{FormList, RowList, SizeList};
use rules::{Refusal, number_of};
use std::fmt;

/// One thing to do with a book, or to ask of it. It is an enum and not a closure, since it is also printed, and is taken with
/// books of two types.
#[derive(Clone, Copy)]
pub enum Step {
    Open(&'static [u8]),
    Empty,
    Labels,
    Size(u8),
    Live(Wording),
    Permitted(Wording, Wording),
    Partners(Wording, u8),
    Strike(Wording),
    Narrow(u8, u8, &'static [u16]),
}

/// What a book answers to a step: how a call ended, a count, yes or no, or the forms of a row.
#[derive(Clone, Copy)]
pub enum Answer {
    Outcome(Result<(), Refusal>),
    Count(u8),
    Yes(bool),
    Forms(u16),
}

impl fmt::Display for Step {
    fn fmt<W: fmt::Write>(&self, f: &mut fmt::Formatter<W>) -> fmt::Result {
        match *self {
            Step::Open(sizes) => write!(f, "open with sizes {}", SizeList(sizes)),
            Step::Empty => write!(f, "empty"),
            Step::Labels => write!(f, "how many labels"),
            Step::Size(i) => write!(f, "how many forms of label {i}"),
            Step::Live(w) => write!(f, "is {w} live"),
            Step::Permitted(one, two) => write!(f, "may {one} stand with {two}"),
            Step::Partners(w, j) => write!(f, "which forms of label {j} may stand with {w}"),
            Step::Strike(w) => write!(f, "strike {w}"),
            Step::Narrow(i, j, rows) => write!(f, "narrow labels {i} and {j} to {}", RowList(rows)),
        }
    }
}

// `walk` promises the answer; this promises how it is written, but for the forms of a row.
impl fmt::Display for Answer {
    ghost output = { answer_text };

    fn fmt<W: fmt::Write>(&self, f: &mut fmt::Formatter<W>) -> fmt::Result {
        match *self {
            Answer::Outcome(outcome) => write!(f, "{}", number_of(&outcome)),
            Answer::Count(n) => write!(f, "{n}"),
            Answer::Yes(true) => write!(f, "yes"),
            Answer::Yes(false) => write!(f, "no"),
            Answer::Forms(row) => write!(f, "{}", FormList(row)),
        }
    }
}

fn at(label: u8, form: u8) -> Wording {
    Wording { label, form }
}

/// What the walk does with both books. (A constant's value cannot call a function, as `at`.)
pub fn steps() -> [Step; 26] {
    [
        Step::Labels,
        Step::Open(&[4, 4, 2, 4]),
        Step::Labels,
        Step::Size(3),
        Step::Size(5),
        Step::Permitted(at(1, 1), at(2, 1)),
        Step::Narrow(1, 2, WITH_PARTNERS),
        Step::Permitted(at(1, 1), at(2, 1)),
        Step::Permitted(at(2, 4), at(1, 3)),
        Step::Partners(at(1, 4), 2),
        Step::Strike(at(2, 3)),
        Step::Live(at(2, 3)),
        Step::Partners(at(1, 4), 2),
        Step::Narrow(3, 4, WITHOUT_PARTNER),
        Step::Partners(at(3, 1), 4),
        Step::Strike(at(4, 3)),
        Step::Narrow(3, 4, WITHOUT_PARTNER),
        Step::Partners(at(3, 1), 4),
        Step::Narrow(2, 1, WITH_PARTNERS),
        Step::Narrow(1, 3, WITH_PARTNERS),
        Step::Strike(at(5, 1)),
        Step::Strike(at(1, 5)),
        Step::Open(&[4, 17]),
        Step::Labels,
        Step::Empty,
        Step::Labels,
    ]
}
