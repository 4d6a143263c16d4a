use crate::{Greatest, Lent, Middle, Rule, Tested};

// Rows, the size of the second label, and the verdicts of rules 1 and 2.
const CASES: [(&[u16], u8, bool, bool); 11] = [
    (&[0b0100, 0b1000, 0b1001, 0b1110], 4, true, false),
    (&[0b011, 0b100], 3, false, true),
    (&[0b100, 0b010, 0b001], 3, false, true),
    (&[0b001, 0b010, 0b100], 3, true, true),
    (&[0b1011, 0b1000], 4, true, true),
    (&[0, 0, 0], 3, true, true),
    // Not tables: a form too many, too many rows, none at all, and two sizes that no label has.
    (&[0b1000], 3, false, false),
    (&[0; 17], 3, false, false),
    (&[], 3, false, false),
    (&[0], 0, false, false),
    (&[0], 17, false, false),
];

#[test]
fn verdicts(rt: HostRuntime) {
    for (rows, size, one, two) in CASES {
        let lent = Lent { rows, size };
        assert_eq!(rt; Greatest::accepts(lent), one);
        assert_eq!(rt; Middle::accepts(lent), two);
    }
}

#[test]
fn numbers(rt: HostRuntime) {
    assert_eq!(rt; Greatest::NUMBER, 1);
    assert_eq!(rt; Middle::NUMBER, 2);
}
