// Steps taken with a book of any kind.
ghost use Rattle.walk.specs.Walking.{Sixteen, Walked};

use crate::step::{Answer, Step};
use books::Book;

// The rows as a book takes them: sixteen, the missing ones empty.
fn sixteen(rows: &[u16]) -> [u16; 16]
    ensures { Sixteen rows.now result }
{
    let mut all = [0u16; 16];
    // With `zip`, or `array::from_fn`, the check does not follow what is written.
    for (k, row) in all.iter_mut().enumerate() {
        *row = rows.get(k).copied().unwrap_or(0);
    }
    all
}

/// Takes the step with the book.
pub fn walk<B: Book>(book: &mut B, step: Step) -> Answer
    ensures { Walked B.view B.holds book.old book.new step result }
{
    match step {
        Step::Open(sizes) => Answer::Outcome(book.open(sizes)),
        Step::Empty => {
            book.empty();
            Answer::Outcome(Ok(()))
        }
        Step::Labels => Answer::Count(book.labels()),
        Step::Size(i) => Answer::Count(book.size(i)),
        Step::Live(w) => Answer::Yes(book.live(w)),
        Step::Permitted(one, two) => Answer::Yes(book.permitted(one, two)),
        Step::Partners(w, j) => Answer::Forms(book.partners(w, j)),
        Step::Strike(w) => Answer::Outcome(book.strike(w)),
        Step::Narrow(i, j, rows) => Answer::Outcome(book.narrow(i, j, sixteen(rows))),
    }
}
