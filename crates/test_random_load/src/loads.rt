// Random loads, and a second reading of document 02, ask 5: a generator written from the paper, and
// the rules of the crate random, row by row.
use load::Totals;
use random::numbers::{below, byte_below, mixed, one_in};
use random::rules::{Happened, code_after, events};
use random::tables::letter_count;
use random::tally::refused;
use table::{MOST_ROWS, Outcome, Row, Table};

// "A run has at most 65,535 ticks".
pub const MOST_TICKS: u32 = 65535;

// Any number, and now and then the least or the largest.
pub fn any_start(seed: u64) -> u32 {
    let kind = byte_below(seed ^ 1, 20);
    match kind {
        0 => 0,
        1 => 0xffff_ffff,
        _ => (mixed(seed ^ 2) >> 32) as u32,
    }
}

// Mostly few ticks, seldom as many as there may be, now and then more.
pub fn any_ticks(seed: u64) -> u32 {
    if one_in(seed ^ 1, 500) {
        return MOST_TICKS;
    }
    let kind = byte_below(seed ^ 2, 60);
    match kind {
        0 => MOST_TICKS + 1,
        1 => MOST_TICKS + 1 + (mixed(seed ^ 3) >> 33) as u32,
        _ => u32::from(below(seed ^ 4, 41)),
    }
}

// "each tick it becomes its product with 1,664,525 plus 1,013,904,223, modulo 2^32".
fn after_tick(number: u32) -> u32 {
    ((u64::from(number) * 1_664_525 + 1_013_904_223) % 0x1_0000_0000) as u32
}

// "the letter is the number divided by 2^26, rounded down, modulo the number of letters".
fn letter_from(number: u32, letters: u8) -> u8 {
    let part = (number >> 26) as u8;
    part.checked_rem(letters).unwrap_or(0)
}

// The totals with what happens at a tick. "Open means in delay or action", after the tick.
fn with_events(t: Totals, happened: Happened, after: u8) -> Totals {
    let open = matches!(after, 61..=180);
    Totals {
        realised: t.realised.saturating_add(u16::from(happened.realised)),
        completed: t.completed.saturating_add(u16::from(happened.completed)),
        breaks: t.breaks.saturating_add(u16::from(happened.broke)),
        pending: u16::from(open),
    }
}

// What a row does by itself in so many ticks, from waiting on.
fn row_totals(row: &Row, letters: u8, start: u32, ticks: u32) -> Totals {
    let mut totals = Totals::default();
    let mut number = start;
    let mut code: u8 = 0;
    for _ in 0..ticks {
        number = after_tick(number);
        let letter = letter_from(number, letters);
        let after = code_after(row, code, letter);
        totals = with_events(totals, events(row, code, letter), after);
        code = after;
    }
    totals
}

// The totals that there should be: zeros for a run that is refused, and for a row that is not used.
pub fn right_totals(table: &Table, taken: bool, start: u32, ticks: u32) -> [Totals; MOST_ROWS] {
    let letters = letter_count(table.signals);
    let used = if taken { usize::from(table.count) } else { 0 };
    let mut right = [Totals::default(); MOST_ROWS];
    for (totals, row) in right.iter_mut().zip(table.rows.iter()).take(used) {
        *totals = row_totals(row, letters, start, ticks);
    }
    right
}

// The totals with one of some row changed.
pub fn struck_totals(seed: u64, totals: [Totals; MOST_ROWS]) -> [Totals; MOST_ROWS] {
    let mut struck = totals;
    let row = &mut struck[usize::from(byte_below(seed ^ 1, 8)) % MOST_ROWS];
    match byte_below(seed ^ 2, 4) {
        0 => row.realised ^= 1,
        1 => row.completed ^= 1,
        2 => row.breaks ^= 1,
        _ => row.pending ^= 1,
    }
    struck
}

// "22 a longer run is asked for, after 17".
pub fn run_outcome(valid: bool, ticks: u32) -> Outcome {
    if !valid {
        refused(17)
    } else if MOST_TICKS < ticks {
        refused(22)
    } else {
        Ok(())
    }
}
