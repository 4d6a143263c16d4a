ghost use Rattle.std.specs.Prelude.{◌≡◌, ℕ};
ghost use Rattle.rules.specs.Limits.{max_rule, Within};
ghost use Rattle.rules.specs.Votes.{Vote, Majority, Chosen, SameVote, greatest, middle};

/// A way to choose one of three forms: its vote.
pub trait Rule {
    /// The number by which sheets name the rule.
    const NUMBER: u16;

    /// The same number, for laws and contracts: the checker refuses a rule whose two differ.
    ghost NUMBER: { ℕ };

    /// The vote on every three numbers.
    ghost voted: { Vote };

    fn vote(a: u8, b: u8, c: u8) -> u8
        ensures { result ≡ voted a b c };

    ghost majority: { Majority voted };

    ghost chosen: { Chosen voted };

    ghost range: { Within max_rule NUMBER };

    /// A rule that takes the number 1 or 2 votes as that rule does.
    ghost one: { NUMBER ≡ 1 → SameVote voted greatest };

    ghost two: { NUMBER ≡ 2 → SameVote voted middle };
}
