// The test of the rows that a narrowing is given.
ghost use Rattle.std.specs.Prelude.{Decides};
ghost use Rattle.books.specs.Changes.{FitsSizes};

use rules::all_end_at;

// Whether each pair of the rows is of forms that labels of these sizes have.
pub(crate) fn fits_sizes(rows: &[u16; 16], height: u8, width: u8) -> bool
    ensures { Decides result (FitsSizes rows.now height width) }
{
    let (inside, outside) = rows.split_at(usize::from(height).min(16));
    all_end_at(inside, width) && all_end_at(outside, 0)
}
