ghost use Rattle.rules.specs.Tables.{IsTable};

use crate::lent::Lent;

/// Lent rows that are a table.
#[derive(Clone, Copy)]
pub struct Table<'a> {
    pub lent: Lent<'a>,
    ghost is_table: { IsTable lent.rows.now lent.size },
}
