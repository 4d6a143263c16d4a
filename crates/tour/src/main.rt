// A tour of the fitter. A maker brings rows for two labels; each is drawn and judged under both rules.
#![tactic(auto)]

mod fault;
mod grid;
mod judging;
mod samples;
mod saying;

use grid::Grid;
use judging::judge;
use listing::RowList;
use rules::{Greatest, Lent, Middle, Refusal, Rule, Tested, limits};
use samples::SAMPLES;
use saying::Saying;
use std::io;

fn introduce(rt: &impl Print) -> io::Result<()> {
    let most = limits::in_force();
    println!(rt;
        "A panel has up to {} labels, each with up to {} forms of its wording.",
        most.labels, most.forms
    )?;
    println!(rt;
        "A table says which forms of two labels may stand together; a sheet has up to {} tables.",
        most.tables
    )?;
    println!(rt;
        "A rule, numbered 1 to {}, votes on three forms: for one that comes twice,",
        most.rule
    )?;
    println!(rt; "or else rule 1 for the greatest and rule 2 for the middle one.")?;
    println!(rt;
        "A table is closed if every three of its pairs vote for a pair of it, and then the rule takes it."
    )?;
    let no_table = u8::from(Refusal::NoTable);
    let not_closed = u8::from(Refusal::NotClosed);
    println!(rt; "0 stands for taken, {no_table} for no table, {not_closed} for not closed.")
}

fn judge_by<R: Tested>(rt: &impl Print, lent: Lent) -> io::Result<()> {
    let saying = Saying {
        rule: R::NUMBER,
        verdict: judge::<R>(lent),
    };
    println!(rt; "   {saying}")
}

fn visit(rt: &impl Print, place: usize, lent: Lent) -> io::Result<()> {
    let Lent { rows, size } = lent;
    println!(rt;
        "\n{place}. {} rows: {}; size of the second label: {size}",
        rows.len(),
        RowList(rows)
    )?;
    println!(rt; "{}", Grid(lent))?;
    judge_by::<Greatest>(rt, lent)?;
    judge_by::<Middle>(rt, lent)
}

fn main(rt: HostRuntime) -> io::Result<()> {
    introduce(&rt)?;
    for (k, lent) in SAMPLES.iter().enumerate() {
        visit(&rt, k + 1, *lent)?;
    }
    Ok(())
}
