// Rows and sizes in print, for the programs.
#![tactic(auto)]

mod row_list;

pub use row_list::{FormList, RowList, SizeList};
