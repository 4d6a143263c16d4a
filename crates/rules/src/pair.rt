ghost use Rattle.std.specs.Prelude.{◌≡◌};

use crate::rule::Rule;
use std::fmt;

/// A form of the first label of a table, and a form of the second.
#[derive(Clone, Copy, PartialEq, Eq, Debug)]
pub struct Pair(pub u8, pub u8);

impl fmt::Display for Pair {
    fn fmt<W: fmt::Write>(&self, f: &mut fmt::Formatter<W>) -> fmt::Result {
        let Pair(a, b) = self;
        write!(f, "({a},{b})")
    }
}

/// The pair that three pairs vote for: the vote of their first forms, and of their second.
pub fn voted_pair<R: Rule>(one: Pair, two: Pair, three: Pair) -> Pair
    ensures first { result.0 ≡ R.voted one.0 two.0 three.0 }
    ensures second { result.1 ≡ R.voted one.1 two.1 three.1 }
{
    Pair(
        R::vote(one.0, two.0, three.0),
        R::vote(one.1, two.1, three.1),
    )
}
