// Books: stores for the forms and pairs of a panel.
#![tactic(auto)]

mod book;
mod booking;
mod compact;
mod compact_row;
mod ends;
mod forms;
mod frame;
mod framing;
mod full;
mod label;
mod label_pair;
mod rewriting;
mod rows;
mod store;
mod stored;
mod table;
#[cfg(test)]
mod tests;
mod wording;

pub use book::Book;
pub use compact::CompactBook;
pub use full::FullBook;
pub use wording::Wording;
