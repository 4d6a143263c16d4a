// Rules and their votes, tables and the test of closure, with the limits and refusals of the whole product.
#![tactic(auto)]

mod lent;
pub mod limits;
mod pair;
mod reading;
mod refusal;
mod rule;
mod search;
mod table;
mod tested;
#[cfg(test)]
mod tests;
mod votes;
mod witness;

pub use lent::Lent;
pub use pair::{Pair, voted_pair};
pub use reading::{ROW_BITS, all_end_at, has_form, has_pair};
pub use refusal::{Refusal, number_of};
pub use rule::Rule;
pub use search::find_witness;
pub use table::Table;
pub use tested::Tested;
pub use votes::{Greatest, Middle};
pub use witness::Witness;
