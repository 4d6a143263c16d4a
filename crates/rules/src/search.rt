// The search for three pairs of a table whose vote is none of it.
ghost use Rattle.std.specs.Prelude.{◌≡◌, false, true, MatchOption};
ghost use Rattle.rules.specs.Closing.{Closed};
ghost use Rattle.rules.specs.Partial.{ClosedAfterOne, ClosedAfterTwo, ClosedAfterThree};
ghost use Rattle.rules.specs.Lending.{pairs_of, Has, Breaks};

use crate::limits::MAX_FORMS;
use crate::pair::{Pair, voted_pair};
use crate::rule::Rule;
use crate::table::Table;
use crate::witness::Witness;

// These three pairs with their vote, which may be one of the table or none.
fn witness_of<R: Rule>(one: Pair, two: Pair, three: Pair) -> Witness
    ensures one { result.one ≡ one }
    ensures two { result.two ≡ two }
    ensures three { result.three ≡ three }
    ensures first { result.vote.0 ≡ R.voted one.0 two.0 three.0 }
    ensures second { result.vote.1 ≡ R.voted one.1 two.1 three.1 }
{
    Witness {
        one,
        two,
        three,
        vote: voted_pair::<R>(one, two, three),
    }
}

// Whether the vote of the three pairs is none of the table, where the first two are of it.
// Each search hands on pairs of the table alone. Their forms are tested once more only for speed: the check of the forms
// of the vote then falls away in the innermost loop.
fn votes_out<R: Rule>(table: Table, one: Pair, two: Pair, three: Pair) -> bool
    ensures no { result ≡ false → Has (pairs_of table.entry) one → Has (pairs_of table.entry) two → ClosedAfterThree R.voted (pairs_of table.entry) one two three }
    ensures yes { result ≡ true → ClosedAfterThree R.voted (pairs_of table.entry) one two three → ⊥ }
{
    (1..=MAX_FORMS).contains(&one.1)
        && table.has(two)
        && !table.has(witness_of::<R>(one, two, three).vote)
}

/// A witness against the table: there is one unless it is closed. Every three pairs are tried, in every order.
// The two outer closures have clauses: without them the check does not carry what an inner search finds to the outer one.
pub fn find_witness<R: Rule>(table: &Table) -> Option<Witness>
    ensures { MatchOption result (Closed R.voted (pairs_of table.now)) (Breaks R.voted (pairs_of table.now)) }
{
    let table = *table;
    table.find_map(
        move |one|
            ensures { MatchOption result
                (Has (pairs_of table.entry) one → ClosedAfterOne R.voted (pairs_of table.entry) one)
                (λ w. Has (pairs_of table.entry) one → Breaks R.voted (pairs_of table.entry) w) }
        {
            table.find_map(
                move |two|
                    ensures { MatchOption result
                        (Has (pairs_of table.entry) one → Has (pairs_of table.entry) two → ClosedAfterTwo R.voted (pairs_of table.entry) one two)
                        (λ w. Has (pairs_of table.entry) one → Has (pairs_of table.entry) two → Breaks R.voted (pairs_of table.entry) w) }
                {
                    // The witness is made once, after the innermost loop.
                    let three = table.find(move |three| votes_out::<R>(table, one, two, three))?;
                    Some(witness_of::<R>(one, two, three))
                },
            )
        },
    )
}
