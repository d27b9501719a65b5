// The lists that are lent to a search: their lengths, the rubbish that they hold before it, and
// what they should hold after it by document 01.
ghost use Rattle.std.specs.Prelude.{◌≡◌, ◌≤◌, length};

use crate::expected::Expected;
use random::numbers::{below, byte_below, mixed};
use second::Solved;
use std::array;

// No list is longer, but for the index.
pub const LONGEST: usize = 512;

// No index is longer: the longest that is of use for any room, and far more than for these.
pub const LONGEST_INDEX: usize = 8189;

// A length below n if it is to be short, else at least n, where LONGEST allows it.
fn any_length(seed: u64, n: usize, short: bool) -> usize
    ensures { result ≤ 512 }
{
    let own = mixed(seed);
    let most = n.min(LONGEST);
    let length = match (short, own % 2, own % 3) {
        (true, 0, _) => most.saturating_sub(1),
        (true, _, _) => usize::from(below(own, most as u16)),
        (false, _, 0) => most + usize::from(below(own, 300)),
        (false, more, _) => most + more as usize,
    };
    length.min(LONGEST)
}

// How many places the index has: often none, often about as many as there is room, else fewer than
// that or any number.
fn any_index(seed: u64, room: usize) -> usize
    requires { room ≤ 512 }
    ensures { result ≤ 8189 }
{
    let own = mixed(seed);
    let length = match byte_below(own ^ 2, 8) {
        0 | 1 => 0,
        2..=4 => room.saturating_sub(1) + usize::from(below(own ^ 1, 4)),
        5 => usize::from(below(own ^ 3, room as u16)),
        6 => usize::from(below(own ^ 3, 8189)),
        _ => LONGEST_INDEX,
    };
    length.min(LONGEST_INDEX)
}

// The lengths of the four lent lists.
#[derive(Clone, Copy, Debug, PartialEq, Eq)]
pub struct Lengths {
    pub states: usize,
    pub lost: usize,
    pub index: usize,
    pub trace: usize,
    ghost states_bound: { states ≤ 512 },
    ghost lost_bound: { lost ≤ 512 },
    ghost index_bound: { index ≤ 8189 },
    ghost trace_bound: { trace ≤ 512 },
}

impl Lengths {
    // "The room is then the shorter of two lists".
    pub fn room(self) -> usize {
        self.states.min(self.lost)
    }
}

// Lengths for a table: now and then one of the lists is too short for it. That of the index is
// drawn by itself.
pub fn any_lengths(seed: u64, index_seed: u64, solved: &Solved) -> Lengths
    ensures states_bound { result.states ≤ 512 }
    ensures lost_bound { result.lost ≤ 512 }
    ensures index_bound { result.index ≤ 8189 }
    ensures trace_bound { result.trace ≤ 512 }
{
    let own = mixed(seed);
    let short = own % 30;
    let states = any_length(own ^ 1, solved.count, short < 2);
    let lost = any_length(own ^ 4, solved.count, (1 < short) & (short < 4));
    Lengths {
        states,
        lost,
        index: any_index(index_seed, states.min(lost)),
        trace: any_length(own ^ 5, solved.trace_length(), 26 < short),
    }
}

// The lists hold different rubbish: each has a key of its own.
const STATES_KEY: u64 = 0x10000;

const LOST_KEY: u64 = 0x40000;

const TRACE_KEY: u64 = 0x50000;

const INDEX_KEY: u64 = 0x60000;

// What stands at a place before the search.
fn rubbish(key: u64, i: usize) -> u64 {
    mixed(key ^ (i as u64))
}

fn rubbish_u16(key: u64, i: usize) -> u16 {
    (rubbish(key, i) % 65536) as u16
}

fn rubbish_u8(key: u64, i: usize) -> u8 {
    (rubbish(key, i) % 256) as u8
}

// What the lists hold.
#[derive(Clone, Copy, Debug, PartialEq, Eq)]
pub struct Held {
    pub states: [u64; LONGEST],
    pub lost: [u16; LONGEST],
    pub index: [u16; LONGEST_INDEX],
    pub trace: [u8; LONGEST],
}

// What they hold before the search.
pub fn before_search(key: u64) -> Held
    ensures value { 512 ≡ length result.states }
    ensures value_2 { 512 ≡ length result.lost }
    ensures value_3 { 8189 ≡ length result.index }
    ensures value_4 { 512 ≡ length result.trace }
{
    Held {
        states: array::from_fn(|i| rubbish(key ^ STATES_KEY, i)),
        lost: array::from_fn(|i| rubbish_u16(key ^ LOST_KEY, i)),
        index: array::from_fn(|i| rubbish_u16(key ^ INDEX_KEY, i)),
        trace: array::from_fn(|i| rubbish_u8(key ^ TRACE_KEY, i)),
    }
}

// What they should hold after the search: up to `used` what the second search found, and past that
// 0 if they were cleared, else what they held. Under a verdict the trace buffer has the trace, "the
// rest unchanged".
pub fn after_search(before: Held, solved: &Solved, right: Expected) -> Held {
    let mut after = before;
    if right.cleared {
        after.states = [0; LONGEST];
        after.lost = [0; LONGEST];
        after.index = [0; LONGEST_INDEX];
    }
    let states = solved.entries.map(|entry| entry.state);
    let lost = solved.entries.map(|entry| entry.lost);
    let used = right.used.min(LONGEST);
    after.states[..used].copy_from_slice(&states[..used]);
    after.lost[..used].copy_from_slice(&lost[..used]);
    if let Some(trap) = solved.trap {
        let letters = right.letters().min(LONGEST);
        after.trace[..letters].copy_from_slice(&trap.trace.letters[..letters]);
    }
    after
}
