// The two rules of the product.
ghost use Rattle.rules.specs.Votes.{greatest, middle};
ghost use Rattle.std.proofs.Common.{rules};

use crate::rule::Rule;
use crate::tested::Tested;

/// Rule 1: of three different forms the greatest.
#[derive(Clone, Copy)]
pub struct Greatest;

/// Rule 2: of three different forms the middle one.
#[derive(Clone, Copy)]
pub struct Middle;

impl Rule for Greatest {
    const NUMBER: u16 = 1;

    ghost NUMBER = { 1 };

    ghost voted = { greatest };

    ghost majority = { Prim.search rules };

    ghost chosen = { Prim.search rules };

    ghost range = { Prim.search rules };

    ghost one = { Prim.search rules };

    ghost two = { Prim.search rules };

    fn vote(a: u8, b: u8, c: u8) -> u8 {
        if a == b || a == c {
            a
        } else if b == c {
            b
        } else {
            a.max(b.max(c))
        }
    }
}

impl Rule for Middle {
    const NUMBER: u16 = 2;

    ghost NUMBER = { 2 };

    ghost voted = { middle };

    ghost majority = { Prim.search rules };

    ghost chosen = { Prim.search rules };

    ghost range = { Prim.search rules };

    ghost one = { Prim.search rules };

    ghost two = { Prim.search rules };

    fn vote(a: u8, b: u8, c: u8) -> u8 {
        a.min(b).max(a.max(b).min(c))
    }
}

impl Tested for Greatest {}

impl Tested for Middle {}
