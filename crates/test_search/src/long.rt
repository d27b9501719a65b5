// Large tables in lists of 5,000 places, more than the search takes. Past the entries every place
// of the scratch has to be 0, and past the trace every place of its buffer 7, as it was.
use crate::indexes::show_indexes;
use crate::print::print_found;
use crate::run::{ALL, ANSWER, LONG, LOST, TRACE, run};
use std::io;
use table::Table;
use verdict::{Finding, Found};

fn count_of(found: Found) -> u16 {
    match found {
        Err(_) => 0,
        Ok(Finding::Sound(summary)) => summary.count,
        Ok(Finding::Trapped(summary, _)) => summary.count,
    }
}

// How many of the places from `from` up to `to` do not hold a value.
fn others(held: &[u64; ALL], from: usize, to: usize, value: u64) -> u64 {
    let mut n: u64 = 0;
    for i in 0..ALL {
        if (from <= i) & (i < to) {
            if held[i] != value {
                n = n.wrapping_add(1);
            }
        }
    }
    n
}

// Prints the answer, how many places of each scratch list past the entries are not 0, and how many
// of the buffer past the trace are not 7: all 0. Then, so that one sees that a place is noticed,
// how many states past the first are not 0, and how many entries are doomed.
pub fn show_long(rt: &impl Print, name: &str, table: Table) -> io::Result<()> {
    print!(rt; "{name} in 5000 places: ")?;
    let first = run(table, LONG, LONG, 0, LONG);
    let length = print_found(rt, first.found)? as usize;
    println!(rt; ", trace of {length} letters")?;
    let held = &first.held;
    let count = count_of(first.found) as usize;
    let states = others(held, count, LOST, 0);
    let lost = others(held, LOST + count, TRACE, 0);
    let trace = others(held, TRACE + length, ANSWER, 7);
    print!(rt; "  touched past the entries {states} {lost}, past the trace {trace}")?;
    let later = others(held, 1, LOST, 0);
    let doomed = others(held, LOST, TRACE, 0);
    print!(rt; ", states from entry 1 on {later}, doomed {doomed}")?;
    show_indexes(rt, &first, table, LONG, LONG, LONG)
}
