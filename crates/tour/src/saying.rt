use crate::fault::Fault;
use rules::{Refusal, number_of};
use std::fmt;

/// What the rule of this number says of some rows.
#[derive(Clone, Copy)]
pub struct Saying {
    pub rule: u16,
    pub verdict: Result<(), Fault>,
}

impl fmt::Display for Saying {
    fn fmt<W: fmt::Write>(&self, f: &mut fmt::Formatter<W>) -> fmt::Result {
        let Saying { rule, verdict } = *self;
        let number = number_of(&verdict.map_err(Refusal::from));
        write!(f, "rule {rule}: {number}, ")?;
        match verdict {
            Ok(()) => write!(f, "taken"),
            Err(fault) => write!(f, "{fault}"),
        }
    }
}
