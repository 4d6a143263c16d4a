use crate::framing::ROWS;

/// The rows of all tables, each kept as a `T`.
#[derive(Drop)]
pub struct Rows<T: Copy> {
    pub(crate) rows: [T; ROWS],
}
