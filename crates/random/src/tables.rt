// Random tables, by their numbers.
use crate::numbers::{byte_below, mixed, one_in};
use crate::spoil::spoil;
use std::array;
use table::{MOST_ROWS, MOST_SIGNALS, Name, Row, Table};

// So many tables are tried.
pub const TABLES: u64 = 10000;

const SEED: u64 = 0x2545_f491_4f6c_dd1d;

// "With s signals the letters are 0 to 2^s - 1."
pub fn letter_count(signals: u8) -> u8 {
    if signals <= 6 { 1 << signals } else { 0 }
}

// All letters of so many signals.
fn full(signals: u8) -> u64 {
    match signals {
        1 => 0x3,
        2 => 0xf,
        3 => 0xff,
        4 => 0xffff,
        5 => 0xffff_ffff,
        _ => 0xffff_ffff_ffff_ffff,
    }
}

// The letters in which one signal is on.
fn signal_set(signal: u8) -> u64 {
    match signal {
        0 => 0xaaaa_aaaa_aaaa_aaaa,
        1 => 0xcccc_cccc_cccc_cccc,
        2 => 0xf0f0_f0f0_f0f0_f0f0,
        3 => 0xff00_ff00_ff00_ff00,
        4 => 0xffff_0000_ffff_0000,
        _ => 0xffff_ffff_0000_0000,
    }
}

// A set of letters: none, all, a signal, a signal's absence, few, half or most of them.
fn any_set(seed: u64, signals: u8) -> u64 {
    let own = mixed(seed);
    let kind = byte_below(own ^ 1, 12);
    let one = signal_set(byte_below(own ^ 2, signals));
    let a = mixed(own ^ 3);
    let b = mixed(own ^ 4);
    let all = full(signals);
    match kind {
        0 => 0,
        1 => all,
        2..=4 => one & all,
        5 | 6 => (one & all) ^ all,
        7 | 8 => a & b & all,
        9 | 10 => a & all,
        _ => (a | b) & all,
    }
}

// A least and a most bound.
#[derive(Clone, Copy, Debug, PartialEq, Eq)]
struct Range {
    least: u8,
    most: u8,
}

fn any_range(seed: u64, scale: u8) -> Range {
    let own = mixed(seed);
    let a = byte_below(own ^ 1, scale);
    let b = byte_below(own ^ 2, scale);
    Range {
        least: a.min(b),
        most: a.max(b),
    }
}

// A row with bounds below `scale`. In a slow one the trigger's ticks are fixed.
fn any_row(seed: u64, signals: u8, scale: u8, slow: bool) -> Row {
    let own = mixed(seed);
    let t = any_range(own ^ 7, scale);
    let l = any_range(own ^ 8, scale);
    let a = any_range(own ^ 9, scale);
    Row {
        sets: array::from_fn(|i| any_set(own ^ (i as u64).wrapping_add(1), signals)),
        tmin: if slow { t.most } else { t.least },
        tmax: t.most,
        lmin: l.least,
        lmax: l.most,
        amin: a.least,
        amax: a.most,
    }
}

// The names a, b, c and so on.
fn names(signals: u8) -> [Name; MOST_SIGNALS] {
    let mut names = [Name::default(); MOST_SIGNALS];
    for (name, letter) in names.iter_mut().zip(b'a'..=b'z').take(usize::from(signals)) {
        name.chars[0] = letter;
    }
    names
}

fn any_rows(seed: u64, signals: u8, count: u8, scale: u8, slow: bool) -> [Row; MOST_ROWS] {
    let own = mixed(seed);
    array::from_fn(|i| {
        if i < usize::from(count) {
            any_row(own ^ (i as u64), signals, scale, slow)
        } else {
            Row::default()
        }
    })
}

// The bounds of a table of so many rows are below this.
fn any_scale(seed: u64, count: u8) -> u8 {
    if 4 < count {
        return 2;
    }
    let large = if count == 1 { 61 } else { 6 };
    let middle = if count <= 2 { 20 } else { 6 };
    let scales = [2, 2, 3, 3, 3, 5, 5, large, middle, middle];
    scales[usize::from(byte_below(seed, 10) % 10)]
}

// A table with so many signals that number 17 lets by: mostly 1 to 4 rows, now and then more.
fn table_with(own: u64, signals: u8) -> Table {
    let less = 1 + (own / 3 % 4) as u8;
    let count = if one_in(own ^ 2, 24) { 4 + less } else { less };
    let scale = any_scale(own ^ 3, count);
    Table {
        signals,
        names: names(signals),
        count,
        rows: any_rows(own ^ 5, signals, count, scale, one_in(own ^ 4, 2)),
    }
}

// One with mostly 1 to 3 signals, now and then more.
fn any_table(seed: u64) -> Table {
    let own = mixed(seed);
    let few = 1 + (own % 3) as u8;
    let signals = if one_in(own ^ 1, 24) { 3 + few } else { few };
    table_with(own, signals)
}

// One with 4 to 6 signals.
pub fn wide_table(seed: u64) -> Table {
    let own = mixed(seed);
    table_with(own, 4 + (own % 3) as u8)
}

// A table of some number: what else is chosen for it comes from the seed. What is given to a call
// is the table, or now and then the table with a fault, and then it is not valid.
#[derive(Clone, Copy, Debug, PartialEq, Eq)]
pub struct Case {
    pub seed: u64,
    pub table: Table,
    pub given: Table,
    pub valid: bool,
}

pub fn any_case(number: u64) -> Case {
    let seed = mixed(SEED ^ number);
    let table = any_table(seed ^ 1);
    let spoilt = one_in(seed ^ 2, 40);
    Case {
        seed,
        table,
        given: if spoilt {
            spoil(seed ^ 3, table)
        } else {
            table
        },
        valid: !spoilt,
    }
}
