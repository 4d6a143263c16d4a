use rules::{ROW_BITS, has_form};
use std::fmt;

/// The forms of one row, as in `1,2`; a row without a form is a dash.
#[derive(Clone, Copy)]
pub struct FormList(pub u16);

/// The forms of each row, with bars between the rows, as in `1,2 | 3`; no rows at all are `none`.
#[derive(Clone, Copy)]
pub struct RowList<'a>(pub &'a [u16]);

/// Sizes with commas between them, as in `4,2`.
#[derive(Clone, Copy)]
pub struct SizeList<'a>(pub &'a [u8]);

// One item of a list: what separates it from the item before, unless it is the first, and the item.
fn write_item<W: fmt::Write, T: fmt::Display + Copy>(
    f: &mut fmt::Formatter<W>,
    k: usize,
    bar: &str,
    item: T,
) -> fmt::Result {
    if k > 0 {
        f.write_str(bar)?;
    }
    write!(f, "{item}")
}

impl fmt::Display for FormList {
    fn fmt<W: fmt::Write>(&self, f: &mut fmt::Formatter<W>) -> fmt::Result {
        if self.0 == 0 {
            return write!(f, "-");
        }
        for (k, b) in (1..=ROW_BITS).filter(|b| has_form(self.0, *b)).enumerate() {
            write_item(f, k, ",", b)?;
        }
        Ok(())
    }
}

impl fmt::Display for RowList<'_> {
    fn fmt<W: fmt::Write>(&self, f: &mut fmt::Formatter<W>) -> fmt::Result {
        if self.0.is_empty() {
            return write!(f, "none");
        }
        for (k, row) in self.0.iter().enumerate() {
            write_item(f, k, " | ", FormList(*row))?;
        }
        Ok(())
    }
}

impl fmt::Display for SizeList<'_> {
    fn fmt<W: fmt::Write>(&self, f: &mut fmt::Formatter<W>) -> fmt::Result {
        for (k, size) in self.0.iter().enumerate() {
            write_item(f, k, ",", *size)?;
        }
        Ok(())
    }
}
