// One call of the search, and what it leaves. Every place of the lent lists is 7 before it, so that
// one sees which places the search sets and which it leaves.
ghost use Rattle.std.specs.Prelude.{◌≤◌};

use table::Table;
use verdict::{Finding, Found};

// The most places that a case lends of one list: more than the search takes.
pub const LONG: usize = 5000;

// The most places of an index: more than the longest useful one has.
pub const MANY: usize = 9000;

// What a run leaves, as one list: LONG places each of states, lost numbers and trace buffer, then
// the numbers of the answer.
pub const LOST: usize = LONG;

pub const TRACE: usize = 2 * LONG;

pub const ANSWER: usize = 3 * LONG;

const NUMBERS: usize = 7;

pub const ALL: usize = 15007;

// The answer, the list, and how many places of the index hold 0 and how many still hold 7.
#[derive(Clone, Copy)]
pub struct Ran {
    pub found: Found,
    pub held: [u64; ALL],
    pub zeros: u64,
    pub sevens: u64,
}

fn clipped(n: usize) -> usize
    ensures { result ≤ 5000 }
{
    if n < LONG { n } else { LONG }
}

fn index_clipped(n: usize) -> usize
    ensures { result ≤ 9000 }
{
    if n < MANY { n } else { MANY }
}

// All that an answer says: refusal, line, verdict, count, lost number, trace length, and the rows
// that never fire.
fn numbers(found: Found) -> [u64; NUMBERS] {
    match found {
        Err(refusal) => [refusal.number as u64, refusal.line as u64, 0, 0, 0, 0, 0],
        Ok(Finding::Sound(summary)) => [0, 0, 1, summary.count as u64, 0, 0, summary.lists.never],
        Ok(Finding::Trapped(summary, trap)) => {
            let lost = trap.lost as u64;
            let length = trap.length as u64;
            [
                0,
                0,
                2,
                summary.count as u64,
                lost,
                length,
                summary.lists.never,
            ]
        }
    }
}

// Puts the lists and the answer into one list.
fn together(found: Found, states: [u64; LONG], lost: [u16; LONG], trace: [u8; LONG]) -> [u64; ALL] {
    let mut held = [0u64; ALL];
    let answer = numbers(found);
    for i in 0..LONG {
        held[i] = states[i];
        held[LOST + i] = lost[i] as u64;
        held[TRACE + i] = trace[i] as u64;
    }
    for i in 0..NUMBERS {
        held[ANSWER + i] = answer[i];
    }
    held
}

// How many of the first n places of an index hold a value.
fn holding(index: [u16; MANY], n: usize, value: u16) -> u64 {
    let mut count: u64 = 0;
    for i in 0..MANY {
        if i < n {
            if index[i] == value {
                count = count.wrapping_add(1);
            }
        }
    }
    count
}

// Lends the first places of each list: `a` states, `d` lost numbers, an index of k places, and a
// trace buffer of t.
pub fn run(table: Table, a: usize, d: usize, k: usize, t: usize) -> Ran {
    let mut states = [7u64; LONG];
    let mut lost = [7u16; LONG];
    let mut index = [7u16; MANY];
    let mut trace = [7u8; LONG];
    let a = clipped(a);
    let d = clipped(d);
    let k = index_clipped(k);
    let t = clipped(t);
    let found = search::search(
        table,
        &mut states[..a],
        &mut lost[..d],
        &mut index[..k],
        &mut trace[..t],
    );
    let held = together(found, states, lost, trace);
    let zeros = holding(index, k, 0);
    let sevens = holding(index, k, 7);
    Ran {
        found,
        held,
        zeros,
        sevens,
    }
}

// Whether two runs have the same answer and left the same in each place of the lists.
pub fn alike(one: &[u64; ALL], other: &[u64; ALL]) -> bool {
    for i in 0..ALL {
        if one[i] != other[i] {
            return false;
        }
    }
    true
}
