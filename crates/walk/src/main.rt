// A walk through the calls of a book: the same steps are taken with both books.
#![tactic(auto)]

mod samples;
mod step;
mod walking;

use books::{Book, CompactBook, FullBook};
use rules::{Greatest, Refusal};
use std::io;
use step::steps;
use walking::walk;

fn visit_books(rt: &impl Print) -> io::Result<()> {
    let not_held = u8::from(Refusal::NotHeld);
    let rule = CompactBook::RULE;
    println!(rt;
        "A book keeps a panel: its labels, which forms are live, and which pairs are permitted."
    )?;
    println!(rt;
        "The full book holds every table. The compact book keeps two numbers a row, and refuses with"
    )?;
    println!(rt;
        "{not_held} a table that they cannot tell. Here both serve rule {rule}; 0 stands for done."
    )?;
    let mut full = FullBook::<Greatest>::new();
    let mut compact = CompactBook::new();
    for step in steps() {
        let one = walk(&mut full, step);
        let two = walk(&mut compact, step);
        println!(rt; "   {step}: full {one}, compact {two}")?;
    }
    Ok(())
}

fn main(rt: HostRuntime) -> io::Result<()> {
    visit_books(&rt)
}
