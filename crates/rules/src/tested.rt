ghost use Rattle.std.specs.Prelude.{Decides};
ghost use Rattle.rules.specs.Closing.{Accepted};

use crate::lent::Lent;
use crate::rule::Rule;
use crate::search::find_witness;
use crate::table::Table;

/// A rule with its test. It stands apart from Rule because the body of a trait's method cannot pass `Self` to a function
/// that is bounded by the same trait. A rule with a faster test may write `accepts` itself, behind the same contract.
pub trait Tested: Rule {
    /// Whether the rows are a table and closed under the rule.
    fn accepts(lent: Lent) -> bool
        ensures { Decides result (Accepted Self.Rule.voted lent.entry.rows.now lent.entry.size) }
    {
        Table::try_from(lent).is_ok_and(|table| find_witness::<Self>(&table).is_none())
    }
}
