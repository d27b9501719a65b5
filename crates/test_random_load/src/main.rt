// Runs random tables under random loads, and compares the refusal and all totals of each run with a
// second reading of the paper (loads.rt). Prints how many tables agreed.
#![tactic(auto)]

mod loads;

use loads::{MOST_TICKS, any_start, any_ticks, right_totals, run_outcome, struck_totals};
use random::numbers::{mixed, one_in};
use random::tables::{Case, TABLES, any_case};
use random::tally::{Tally, print_difference, reported, unless};
use std::io;

// The lines, in the order in which they are printed: runs, and those of them that agreed; how often
// a total was changed, and how often this was noticed; runs that were refused, and those of as many
// ticks as there may be; and the triggers realised in the runs.
#[derive(Clone, Copy, Debug, PartialEq, Eq)]
enum Line {
    Runs,
    Agreed,
    Changed,
    Noticed,
    Refused,
    Longest,
    Realised,
}

impl From<Line> for usize {
    fn from(line: Line) -> usize {
        line as usize
    }
}

// The words of the lines.
const WORDS: [&str; 7] = [
    "runs of a load ",
    "agreed ",
    "  with a total changed ",
    "  of these noticed ",
    "refused ",
    "of 65535 ticks ",
    "triggers realised in them ",
];

// Runs a table for some ticks from some number, compares, and counts it. In one table of twenty a
// total in the answer is changed first.
fn attempt(rt: &impl Print, case: Case, tally: &mut Tally) -> io::Result<()> {
    let own = mixed(case.seed ^ 7);
    let start = any_start(own ^ 1);
    let ticks = any_ticks(own ^ 2);
    let changed = one_in(own ^ 3, 20);
    let outcome = run_outcome(case.valid, ticks);
    let taken = outcome.is_ok();
    let right = right_totals(&case.given, taken, start, ticks);
    let ran = load::run(case.given, start, ticks);
    let totals = if changed {
        struck_totals(own ^ 4, ran.totals)
    } else {
        ran.totals
    };
    let same = totals == right;
    let differs = unless(ran.outcome == outcome, 1) | reported(changed, unless(same, 2));
    let words = ["a changed total ", "refusal ", "totals "];
    print_difference(rt, &words, differs, tally.lines[0])?;
    tally.one_more_if(Line::Runs, true);
    tally.one_more_if(Line::Agreed, differs == 0);
    tally.one_more_if(Line::Changed, changed);
    tally.one_more_if(Line::Noticed, changed & !same);
    tally.one_more_if(Line::Refused, !taken);
    tally.one_more_if(Line::Longest, taken & (ticks == MOST_TICKS));
    for row in right {
        tally.more(Line::Realised, usize::from(row.realised));
    }
    Ok(())
}

fn main(rt: HostRuntime) -> io::Result<()> {
    let mut tally = Tally::default();
    for number in 0..TABLES {
        attempt(&rt, any_case(number), &mut tally)?;
    }
    tally.print(&rt, &WORDS)
}
