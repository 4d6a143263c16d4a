ghost use Rattle.rules.specs.Limits.{Within};

use crate::{Book, CompactBook, FullBook, Wording};
use rules::{Greatest, Middle, number_of};
use std::process::Abort;

// The rows of a table for labels 1 and 2 of four forms, which both books hold: 3 | 4 | 1,4 | 2,3,4.
const FOUR: [u16; 16] = [
    0b0100, 0b1000, 0b1001, 0b1110, 0, 0, 0, 0, 0, 0, 0, 0, 0, 0, 0, 0,
];

fn at(label: u8, form: u8) -> Wording {
    Wording { label, form }
}

#[test]
fn numbers(rt: HostRuntime) {
    assert_eq!(rt; FullBook::<Greatest>::RULE, 1);
    assert_eq!(rt; FullBook::<Middle>::RULE, 2);
    assert_eq!(rt; CompactBook::RULE, 1);
    assert_eq!(rt; <CompactBook as Book>::RULE, 1);
}

// The two numbers that the compact book keeps for a form of label 1 towards label 2: their rows stand first.
fn kept(book: &CompactBook, form: usize) -> (u8, u8)
    requires { Within 16 form }
{
    let row = book.rows.rows[form - 1];
    (row.first, row.second)
}

#[test]
fn two_numbers(rt: HostRuntime) {
    let mut book = CompactBook::new();
    assert_eq!(rt; number_of(&book.open(&[4, 4])), 0);
    assert_eq!(rt; number_of(&book.narrow(1, 2, FOUR)), 0);
    assert_eq!(rt; kept(&book, 1), (3, 17));
    assert_eq!(rt; kept(&book, 2), (4, 17));
    assert_eq!(rt; kept(&book, 3), (1, 4));
    assert_eq!(rt; kept(&book, 4), (2, 3));
    assert_eq!(rt; kept(&book, 5), (17, 17));
    // A struck form leaves the rows that have it, and its own row.
    assert_eq!(rt; number_of(&book.strike(at(2, 3))), 0);
    assert_eq!(rt; kept(&book, 1), (17, 17));
    assert_eq!(rt; kept(&book, 4), (2, 4));
    assert_eq!(rt; number_of(&book.strike(at(1, 4))), 0);
    assert_eq!(rt; kept(&book, 4), (17, 17));
    assert_eq!(rt; kept(&book, 3), (1, 4));
}

#[test]
fn common_rows(rt: HostRuntime) {
    let mut book = CompactBook::new();
    assert_eq!(rt; number_of(&book.open(&[1, 5])), 0);
    assert_eq!(rt; number_of(&book.narrow(1, 2, row(0b11001))), 0);
    assert_eq!(rt; kept(&book, 1), (1, 4));
    assert_eq!(rt; number_of(&book.narrow(1, 2, row(0b11010))), 0);
    assert_eq!(rt; kept(&book, 1), (4, 5));
}

// A table of one row.
fn row(forms: u16) -> [u16; 16] {
    let mut rows = [0u16; 16];
    rows[0] = forms;
    rows
}

// What every book answers alike.
fn alike<B: Book>(rt: &impl Abort, book: &mut B) {
    assert_eq!(rt; book.labels(), 0);
    assert_eq!(rt; number_of(&book.open(&[3, 17])), 1);
    assert_eq!(rt; number_of(&book.open(&[4, 4, 2])), 0);
    assert_eq!(rt; number_of(&book.open(&[3, 0])), 1);
    assert_eq!(rt; book.labels(), 3);
    assert_eq!(rt; book.size(3), 2);
    assert_eq!(rt; book.size(4), 0);
    assert_eq!(rt; book.permitted(at(1, 1), at(2, 1)), true);
    assert_eq!(rt; number_of(&book.narrow(1, 2, FOUR)), 0);
    assert_eq!(rt; book.permitted(at(1, 1), at(2, 1)), false);
    assert_eq!(rt; book.permitted(at(1, 3), at(2, 4)), true);
    assert_eq!(rt; book.permitted(at(2, 4), at(1, 3)), true);
    assert_eq!(rt; book.permitted(at(2, 3), at(1, 4)), true);
    assert_eq!(rt; book.permitted(at(2, 4), at(1, 1)), false);
    assert_eq!(rt; book.partners(at(1, 4), 2), 0b1110);
    assert_eq!(rt; book.partners(at(2, 4), 1), 0b1110);
    assert_eq!(rt; book.partners(at(2, 2), 2), 0b0010);
    assert_eq!(rt; book.partners(at(1, 1), 4), 0);
    assert_eq!(rt; number_of(&book.narrow(2, 1, FOUR)), 2);
    assert_eq!(rt; number_of(&book.narrow(255, 255, FOUR)), 2);
    assert_eq!(rt; number_of(&book.narrow(1, 3, FOUR)), 4);
    assert_eq!(rt; number_of(&book.strike(at(4, 1))), 2);
    assert_eq!(rt; number_of(&book.strike(at(3, 3))), 3);
    assert_eq!(rt; number_of(&book.strike(at(2, 3))), 0);
    assert_eq!(rt; number_of(&book.strike(at(2, 3))), 0);
    assert_eq!(rt; book.live(at(2, 3)), false);
    assert_eq!(rt; book.size(2), 4);
    assert_eq!(rt; book.permitted(at(1, 4), at(2, 3)), false);
    assert_eq!(rt; book.partners(at(1, 4), 2), 0b1010);
    book.empty();
    assert_eq!(rt; book.labels(), 0);
}

#[test]
fn both_books(rt: HostRuntime) {
    let mut full = FullBook::<Middle>::new();
    alike(&rt, &mut full);
    let mut compact = CompactBook::new();
    alike(&rt, &mut compact);
}

// 1,3 of four: the full book holds it, the compact one only where form 4 is not live.
#[test]
fn holding(rt: HostRuntime) {
    let mut full = FullBook::<Greatest>::new();
    assert_eq!(rt; number_of(&full.open(&[1, 4])), 0);
    assert_eq!(rt; number_of(&full.narrow(1, 2, row(0b0101))), 0);
    let mut compact = CompactBook::new();
    assert_eq!(rt; number_of(&compact.open(&[1, 4])), 0);
    assert_eq!(rt; number_of(&compact.narrow(1, 2, row(0b0101))), 11);
    assert_eq!(rt; compact.partners(at(1, 1), 2), 0b1111);
    assert_eq!(rt; number_of(&compact.strike(at(2, 4))), 0);
    assert_eq!(rt; number_of(&compact.narrow(1, 2, row(0b0101))), 0);
    assert_eq!(rt; compact.partners(at(1, 1), 2), 0b0101);
}
