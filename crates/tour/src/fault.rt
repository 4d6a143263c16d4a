ghost use Rattle.std.specs.Prelude.{◌≡◌};
ghost use Rattle.tour.specs.Judging.{refusal_of};

use rules::{Refusal, Witness};
use std::fmt;

/// Why a rule does not take lent rows.
#[derive(Clone, Copy, PartialEq, Eq, Debug)]
pub enum Fault {
    NoTable,
    NotClosed(Witness),
}

impl From<Fault> for Refusal {
    ghost from_gives = { λ fault refusal. refusal ≡ refusal_of fault };

    fn from(fault: Fault) -> Refusal {
        match fault {
            Fault::NoTable => Refusal::NoTable,
            Fault::NotClosed(_) => Refusal::NotClosed,
        }
    }
}

impl fmt::Display for Fault {
    fn fmt<W: fmt::Write>(&self, f: &mut fmt::Formatter<W>) -> fmt::Result {
        match *self {
            Fault::NoTable => write!(f, "no table"),
            Fault::NotClosed(witness) => write!(
                f,
                "not closed: {} {} {} vote for {}, which is not in the table",
                witness.one, witness.two, witness.three, witness.vote
            ),
        }
    }
}
