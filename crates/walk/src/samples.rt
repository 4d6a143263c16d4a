// The tables that the books are narrowed to.

/// Each form of either label has a partner.
pub const WITH_PARTNERS: &[u16] = &[0b0100, 0b1000, 0b1001, 0b1110];

/// Form 3 of the second label has no partner.
pub const WITHOUT_PARTNER: &[u16] = &[0b1011, 0b1000];
