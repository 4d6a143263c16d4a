ghost use Rattle.tour.specs.Judging.{Judged};

use crate::fault::Fault;
use rules::{Lent, Table, Tested, find_witness};

/// Judges the rows by the rule's own test, which may be another than the search, and looks for a witness where it says no to
/// a table.
pub fn judge<R: Tested>(lent: Lent) -> Result<(), Fault>
    ensures { Judged R.Rule.voted lent.entry.rows.now lent.entry.size result }
{
    let table = Table::try_from(lent).map_err(|_| Fault::NoTable)?;
    if R::accepts(lent) {
        return Ok(());
    }
    // There is a witness, since the table is not closed.
    let witness = find_witness::<R>(&table).unwrap();
    Err(Fault::NotClosed(witness))
}
