// Ticks random tables along random traces, and compares numbers, phases, events and counts with a
// second reading of the rules. Prints how many tables agreed, and what happened in them.
#![tactic(auto)]

mod counts;
mod starts;
mod tally;
mod watched;

use random::tables::{Case, TABLES, any_case};
use random::tally::Tally;
use std::io;
use tally::{WORDS, count_table};
use watched::follow;

// Follows a table along a trace, and counts it.
fn attempt(rt: &impl Print, case: Case, tally: &mut Tally) -> io::Result<()> {
    let differs = follow(case, tally);
    count_table(rt, tally, differs)
}

fn main(rt: HostRuntime) -> io::Result<()> {
    let mut tally = Tally::default();
    for number in 0..TABLES {
        attempt(&rt, any_case(number), &mut tally)?;
    }
    tally.print(&rt, &WORDS)
}
