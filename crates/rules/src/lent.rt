/// Rows as a caller lends them: the bits of row a are the forms of the second label that go with form a of the first.
/// Whether they are a table for a second label of `size` forms is yet to be seen.
#[derive(Clone, Copy)]
pub struct Lent<'a> {
    pub rows: &'a [u16],
    pub size: u8,
}
