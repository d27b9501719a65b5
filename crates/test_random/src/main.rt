// Searches random tables and compares the answer, and every place of the lent lists, with those of
// the second search. Prints how many tables agreed, and what kinds of answers there were.
#![tactic(auto)]

mod compare;
mod expected;
mod lent;
mod strike;
mod tally;

use compare::{compare_answers, compare_lists};
use expected::expect;
use lent::{Held, Lengths, after_search, any_lengths, before_search};
use random::tables::{Case, TABLES, any_case};
use random::tally::{Tally, reported};
use second::solve;
use std::io;
use strike::{any_strike, struck, struck_answer};
use table::Table;
use tally::{WORDS, count_lent, count_table};
use verdict::Found;

// What a search finds, and what it leaves in the lists.
#[derive(Clone, Copy)]
struct Searched {
    found: Found,
    after: Held,
}

// Searches a table with the first places of each list lent.
fn search_lent(table: Table, before: Held, lengths: Lengths) -> Searched {
    let Held {
        mut states,
        mut lost,
        mut index,
        mut trace,
    } = before;
    let found = search::search(
        table,
        &mut states[..lengths.states],
        &mut lost[..lengths.lost],
        &mut index[..lengths.index],
        &mut trace[..lengths.trace],
    );
    let after = Held {
        states,
        lost,
        index,
        trace,
    };
    Searched { found, after }
}

// Solves a table by the second search, searches the table that is given with lent lists of some
// lengths, compares, and counts it. In one table of twenty a place is changed first.
fn attempt(rt: &impl Print, case: Case, tally: &mut Tally) -> io::Result<()> {
    let seed = case.seed;
    let solved = solve(&case.table);
    let lengths = any_lengths(seed ^ 4, seed ^ 9, &solved);
    let right = expect(case.valid, &solved, lengths);
    let before = before_search(seed);
    let Searched { found, after } = search_lent(case.given, before, lengths);
    let strike = any_strike(seed ^ 5, lengths, right.answer.is_ok());
    let right_lists = after_search(before, &solved, right);
    let differs = compare_lists(&struck(after, strike), &right_lists, lengths)
        | compare_answers(struck_answer(found, strike), right.answer);
    let changed = strike.is_some();
    count_lent(tally, changed, differs, lengths);
    let differs = reported(changed, differs);
    count_table(rt, tally, right, case.given.count, differs, &solved)
}

fn main(rt: HostRuntime) -> io::Result<()> {
    let mut tally = Tally::default();
    for number in 0..TABLES {
        attempt(&rt, any_case(number), &mut tally)?;
    }
    tally.print(&rt, &WORDS)
}
