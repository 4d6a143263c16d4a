use std::fmt;

/// A form of a label. Both count from 1, and any two bytes may be asked about.
#[derive(Clone, Copy, PartialEq, Eq, Debug)]
pub struct Wording {
    pub label: u8,
    pub form: u8,
}

impl fmt::Display for Wording {
    fn fmt<W: fmt::Write>(&self, f: &mut fmt::Formatter<W>) -> fmt::Result {
        write!(f, "form {} of label {}", self.form, self.label)
    }
}
