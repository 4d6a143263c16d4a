// The limits of the product as constants. Code takes them from here, and clauses from specs/Limits.antt.
ghost use Rattle.std.specs.Prelude.{◌≡◌};
ghost use Rattle.rules.specs.Limits.{max_labels, max_forms, max_tables, max_rule};

/// The most labels that a panel has.
pub const MAX_LABELS: u8 = 16;

/// The most forms that a label has.
pub const MAX_FORMS: u8 = 16;

/// The most tables that a sheet has.
pub const MAX_TABLES: u8 = 80;

/// The highest number of a rule; the lowest is 1.
pub const MAX_RULE: u16 = 999;

/// The four limits together.
#[derive(Clone, Copy)]
pub struct Limits {
    pub labels: u8,
    pub forms: u8,
    pub tables: u8,
    pub rule: u16,
}

/// The limits as the product keeps them. This ties the constants to the definitions that clauses cite.
pub fn in_force() -> Limits
    ensures labels { result.labels ≡ max_labels }
    ensures forms { result.forms ≡ max_forms }
    ensures tables { result.tables ≡ max_tables }
    ensures rule { result.rule ≡ max_rule }
{
    Limits {
        labels: MAX_LABELS,
        forms: MAX_FORMS,
        tables: MAX_TABLES,
        rule: MAX_RULE,
    }
}
