ghost use Rattle.tour.specs.Drawing.{LastColumn};

use rules::{Lent, ROW_BITS, has_form};
use std::fmt;

/// Lent rows as a grid: lines are forms of the first label, columns forms of the second. A bar cuts off what lies past the
/// size.
#[derive(Clone, Copy)]
pub struct Grid<'a>(pub Lent<'a>);

// The last column to draw: the size, or the last form in the rows where that lies past it. The last form of a row is how
// many bits it has without its leading zeros.
fn last_column(lent: Lent) -> u8
    ensures { LastColumn lent.entry.rows.now lent.entry.size result }
{
    lent.rows
        .iter()
        .map(|row| ROW_BITS - row.leading_zeros() as u8)
        .fold(lent.size, u8::max)
}

// The bar stands before the first column past the size.
fn bar(b: u8, size: u8) -> &'static str {
    if size.checked_add(1) == Some(b) {
        "  |"
    } else {
        ""
    }
}

impl fmt::Display for Grid<'_> {
    fn fmt<W: fmt::Write>(&self, f: &mut fmt::Formatter<W>) -> fmt::Result {
        let Lent { rows, size } = self.0;
        let last = last_column(self.0);
        write!(f, "     ")?;
        for b in 1..=last {
            write!(f, "{}{b:>3}", bar(b, size))?;
        }
        for (k, row) in rows.iter().enumerate() {
            write!(f, "\n{:>5}", k + 1)?;
            for b in 1..=last {
                let mark = if has_form(*row, b) { '#' } else { '.' };
                write!(f, "{}{mark:>3}", bar(b, size))?;
            }
        }
        Ok(())
    }
}
