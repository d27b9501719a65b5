// Random states and traces for the watcher, and which number a tick of them should give.
ghost use Rattle.std.specs.Prelude.{◌≤◌};

use pass::Watch;
use random::numbers::{below, byte_below, mixed, one_in};
use random::tables::letter_count;
use random::tally::refused;
use std::array;
use table::{MOST_ROWS, Outcome, Row, Table};

// No trace is longer.
pub const MOST_LETTERS: usize = 24;

// A code of a phase whose codes count on from `base`; now and then one tick too long.
fn in_phase(seed: u64, base: u8, most: u8) -> u8
    requires { base ≤ 120 }
{
    if one_in(seed ^ 1, 100) {
        return base + 1 + most % 64;
    }
    if most == 0 {
        return 0;
    }
    base + 1 + byte_below(seed ^ 2, most) % 64
}

fn any_code(seed: u64, row: &Row) -> u8 {
    let own = mixed(seed);
    let kind = byte_below(own ^ 1, 12);
    match kind {
        0..=2 => 0,
        3..=5 => in_phase(own ^ 2, 0, row.tmax),
        6..=8 => in_phase(own ^ 3, 60, row.lmax),
        9 | 10 => in_phase(own ^ 4, 120, row.amax),
        _ => 255,
    }
}

// The codes of all rows: for half of the tables all wait. An unused row is rarely not 0.
pub fn any_codes(seed: u64, table: &Table) -> [u8; MOST_ROWS] {
    let own = mixed(seed);
    let mut codes = [0u8; MOST_ROWS];
    if one_in(own ^ 1, 2) {
        return codes;
    }
    for (i, row) in table.rows.iter().enumerate() {
        let place = own ^ (16 * (i as u64));
        if i < usize::from(table.count) {
            codes[i] = any_code(place ^ 2, row);
        } else if one_in(place ^ 3, 300) {
            codes[i] = 255;
        }
    }
    codes
}

// The watcher's state with these codes.
pub fn watch_of(codes: [u8; MOST_ROWS]) -> Watch {
    Watch {
        slots: codes.map(phases::phase_of),
    }
}

// Rarely a letter is too large.
fn any_letter(seed: u64, letters: u8) -> u8 {
    if one_in(seed ^ 1, 300) {
        return letters % 128 + byte_below(seed ^ 2, 3) % 4;
    }
    byte_below(seed ^ 3, letters)
}

pub fn any_letters(seed: u64, signals: u8) -> [u8; MOST_LETTERS] {
    let own = mixed(seed);
    let letters = letter_count(signals);
    array::from_fn(|i| any_letter(own ^ ((i as u64) << 4), letters))
}

// A trace's length, from none to all letters.
pub fn any_length(seed: u64) -> usize
    ensures { result ≤ 24 }
{
    usize::from(below(seed, 25)).min(MOST_LETTERS)
}

// "a row's code is not 0, 255, nor trigger, delay or action with 1 to Tmax, Lmax or Amax ticks".
fn code_fits(row: &Row, code: u8) -> bool {
    match code {
        0 | 255 => true,
        1..=60 => code <= row.tmax,
        61..=120 => code - 60 <= row.lmax,
        121..=254 => code - 120 <= row.amax,
    }
}

// "or an unused row's code is not 0".
fn codes_fit(table: &Table, codes: &[u8; MOST_ROWS]) -> bool {
    let used = usize::from(table.count);
    let mut rows = table.rows.iter().zip(codes.iter()).take(used);
    let mut rest = codes.iter().skip(used);
    rows.all(|(row, code)| code_fits(row, *code)) && rest.all(|code| *code == 0)
}

// "A watcher call tests 17 (for the signal count and rows that it is lent), 18, 19".
pub fn tick_outcome(valid: bool, table: &Table, codes: &[u8; MOST_ROWS], letter: u8) -> Outcome {
    if !valid {
        refused(17)
    } else if !codes_fit(table, codes) {
        refused(18)
    } else if letter_count(table.signals) <= letter {
        refused(19)
    } else {
        Ok(())
    }
}
