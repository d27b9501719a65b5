// Writes random tables, and compares the answer, and every byte of the lent buffer, with what a
// second writer gives (backward.rt). Prints how many tables agreed, and what became of them.
#![tactic(auto)]

mod backward;
mod compare;
mod names;
mod tally;

ghost use Rattle.std.specs.Prelude.{◌≤◌};

use backward::put_file;
use compare::{compare_answers, expect, right_bytes};
use names::renamed;
use random::numbers::{below, byte_below, mixed, one_in};
use random::spoil::spoil;
use random::tables::{Case, TABLES, any_case, wide_table};
use random::tally::{Tally, reported, unless};
use std::{array, io};
use table::{MOST_BYTES, Table};
use tally::{WORDS, count_strike, count_table};
use writer::Written;

// No buffer is longer: some bytes more than a file has at most.
const LONGEST: usize = 4200;

// What the buffer holds before a call.
fn rubbish(seed: u64) -> [u8; LONGEST] {
    let own = mixed(seed);
    array::from_fn(|i| (mixed(own ^ (i as u64)) % 256) as u8)
}

// How many bytes are lent for a file of so many: about as many, any number, or as many as a file
// may have.
fn any_lent(seed: u64, length: usize) -> usize
    ensures { result ≤ 4200 }
{
    let own = mixed(seed);
    let n = match byte_below(own ^ 1, 4) {
        0 => MOST_BYTES,
        1 => usize::from(below(own ^ 2, 4201)),
        2 => length,
        _ => length.saturating_sub(1),
    };
    n.min(LONGEST)
}

// What a call answers, and the bytes after it.
#[derive(Clone, Copy, Debug, PartialEq, Eq)]
struct Call {
    written: Written,
    bytes: [u8; LONGEST],
}

// Writes a table to the first `lent` bytes.
fn write_lent(table: Table, before: [u8; LONGEST], lent: usize) -> Call
    requires { lent ≤ 4200 }
{
    let mut bytes = before;
    let written = writer::write(table, &mut bytes[..lent]);
    Call { written, bytes }
}

// Writes a table, compares, and counts it. In one table of twenty a byte is changed first.
fn attempt(
    rt: &impl Print,
    seed: u64,
    table: Table,
    valid: bool,
    tally: &mut Tally,
) -> io::Result<()> {
    let own = mixed(seed);
    let put = put_file(&table);
    let file = put.as_ref().map(|file| file.as_slice());
    let lent = any_lent(own ^ 3, file.map_or(MOST_BYTES + 1, |file| file.len()));
    let right = expect(valid, file, lent);
    let before = rubbish(own ^ 4);
    let Call { written, mut bytes } = write_lent(table, before, lent);
    let changed = one_in(own ^ 2, 20);
    if changed && let Some(byte) = bytes.get_mut(usize::from(below(own ^ 1, 4200))) {
        *byte ^= 1;
    }
    let same = bytes == right_bytes(before, right);
    let differs = compare_answers(written, right) | unless(same, 3);
    count_strike(tally, changed, differs != 0);
    count_table(rt, tally, right, lent, reported(changed, differs))
}

// Writes a table as it is, or with longer names, or one with more signals, or now and then the
// table with a fault.
fn run(rt: &impl Print, case: Case, tally: &mut Tally) -> io::Result<()> {
    let own = mixed(case.seed ^ 8);
    if one_in(own ^ 1, 40) {
        return attempt(rt, own ^ 2, spoil(own ^ 3, case.table), false, tally);
    }
    if one_in(own ^ 4, 3) {
        return attempt(rt, own ^ 2, case.table, true, tally);
    }
    let given = if one_in(own ^ 5, 2) {
        case.table
    } else {
        wide_table(own ^ 6)
    };
    attempt(rt, own ^ 2, renamed(own ^ 7, given), true, tally)
}

fn main(rt: HostRuntime) -> io::Result<()> {
    let mut tally = Tally::default();
    for number in 0..TABLES {
        run(&rt, any_case(number), &mut tally)?;
    }
    tally.print(&rt, &WORDS)
}
