use rules::Lent;

/// What makers bring: the rows that the tour draws and judges.
pub const SAMPLES: [Lent<'static>; 9] = [
    Lent {
        rows: &[0b0100, 0b1000, 0b1001, 0b1110],
        size: 4,
    },
    Lent {
        rows: &[0b011, 0b100],
        size: 3,
    },
    Lent {
        rows: &[0b100, 0b010, 0b001],
        size: 3,
    },
    Lent {
        rows: &[0b001, 0b010, 0b100],
        size: 3,
    },
    Lent {
        rows: &[0b1011, 0b1000],
        size: 4,
    },
    Lent {
        rows: &[0, 0, 0],
        size: 3,
    },
    // Not tables: a form too many, too many rows, and none at all.
    Lent {
        rows: &[0b001, 0b1010],
        size: 3,
    },
    Lent {
        rows: &[0b1; 17],
        size: 1,
    },
    Lent { rows: &[], size: 3 },
];
