// The step rules of document 01, as document 02, ask 4, amends them, over phase codes: "0 waiting;
// 1-60 trigger elapsed; 60 + elapsed for delay; 120 + elapsed for action; 255 broken"; which of the
// events of document 02, ask 1, happen at a letter; and which rows' triggers are realised at it.
use table::{AC, AEE, ASE, Row, TC, TEE, TSE, Table};

const WAITING: u8 = 0;

const DELAY: u8 = 60;

const ACTION: u8 = 120;

const BROKEN: u8 = 255;

fn holds(set: u64, letter: u8) -> bool {
    letter < 64 && (set >> letter) % 2 == 1
}

// The code of so many ticks, of a phase whose codes count on from `base`.
fn elapsed(base: u8, ticks: u8) -> u8 {
    base.saturating_add(ticks)
}

// "if AEE holds and a >= Amin: waiting. Else if AC holds and a < Amax: action, a + 1. Else broken."
fn action_check(row: &Row, a: u8, letter: u8) -> u8 {
    if holds(row.sets[AEE], letter) & (row.amin <= a) {
        return WAITING;
    }
    if holds(row.sets[AC], letter) & (a < row.amax) {
        return elapsed(ACTION, a + 1);
    }
    BROKEN
}

// "if ASE holds and d >= Lmin, do the action check with 0 on the same letter. Else if d < Lmax:
// delay, d + 1. Else broken."
fn delay_check(row: &Row, d: u8, letter: u8) -> u8 {
    if holds(row.sets[ASE], letter) & (row.lmin <= d) {
        return action_check(row, 0, letter);
    }
    if d < row.lmax {
        return elapsed(DELAY, d + 1);
    }
    BROKEN
}

// "if TEE holds and t >= Tmin, the trigger is realised: do the delay check with 0 on the same
// letter. Else if TC holds and t < Tmax: trigger, t + 1. Else waiting (aborted)".
fn trigger_check(row: &Row, t: u8, letter: u8) -> u8 {
    if holds(row.sets[TEE], letter) & (row.tmin <= t) {
        return delay_check(row, 0, letter);
    }
    if holds(row.sets[TC], letter) & (t < row.tmax) {
        return t + 1;
    }
    WAITING
}

// "Waiting: if TSE holds, do the trigger check with 0; else stay waiting." "A trigger that aborts
// in the tick it began starts no other."
fn start_check(row: &Row, letter: u8) -> u8 {
    if holds(row.sets[TSE], letter) {
        trigger_check(row, 0, letter)
    } else {
        WAITING
    }
}

// "Else waiting (aborted)": with t ticks the trigger neither is realised nor goes on.
fn lapses(row: &Row, t: u8, letter: u8) -> bool {
    let realised = holds(row.sets[TEE], letter) & (row.tmin <= t);
    let goes_on = holds(row.sets[TC], letter) & (t < row.tmax);
    !realised & !goes_on
}

// "When a trigger that began at an earlier tick aborts and TSE holds at that letter".
pub fn restarts(row: &Row, code: u8, letter: u8) -> bool {
    let earlier = matches!(code, 1..=60);
    earlier & lapses(row, code, letter) & holds(row.sets[TSE], letter)
}

// "do the trigger check with 0 on the same letter. If this second check aborts as well, the row
// waits." A trigger that does not restart has the one check.
fn running_check(row: &Row, code: u8, letter: u8) -> u8 {
    if restarts(row, code, letter) {
        trigger_check(row, 0, letter)
    } else {
        trigger_check(row, code, letter)
    }
}

// A row's code after a letter, broken or not. "A row in a phase does the check of that phase with
// its elapsed ticks."
pub fn code_after(row: &Row, code: u8, letter: u8) -> u8 {
    match code {
        WAITING => start_check(row, letter),
        1..=60 => running_check(row, code, letter),
        61..=120 => delay_check(row, code - DELAY, letter),
        121..=254 => action_check(row, code - ACTION, letter),
        BROKEN => BROKEN,
    }
}

// The state one letter later, or none if a row breaks. "the first row's code is the lowest eight
// bits".
pub fn step(table: &Table, state: u64, letter: u8) -> Option<u64> {
    let mut codes = state.to_le_bytes();
    let rows = table.rows.iter().zip(codes.iter_mut());
    for (row, code) in rows.take(usize::from(table.count)) {
        *code = code_after(row, *code, letter);
        if *code == BROKEN {
            return None;
        }
    }
    Some(u64::from_le_bytes(codes))
}

// The number of events.
pub const KINDS: usize = 6;

// What happens to a row at a letter.
#[derive(Clone, Copy, Debug, Default, PartialEq, Eq)]
pub struct Happened {
    pub started: bool,
    pub realised: bool,
    pub aborted: bool,
    pub acting: bool,
    pub completed: bool,
    pub broke: bool,
}

impl Happened {
    // Each of them, in the order in which they are counted.
    pub fn kinds(self) -> [bool; KINDS] {
        [
            self.started,
            self.realised,
            self.aborted,
            self.acting,
            self.completed,
            self.broke,
        ]
    }
}

// "trigger started": the row waits and TSE holds, or its trigger restarts.
fn starts(row: &Row, code: u8, letter: u8) -> bool {
    ((code == WAITING) & holds(row.sets[TSE], letter)) | restarts(row, code, letter)
}

// The elapsed ticks with which the trigger check is done at the letter, if it is: the second one if
// there are two.
fn trigger_ticks(row: &Row, code: u8, letter: u8) -> Option<u8> {
    if starts(row, code, letter) {
        return Some(0);
    }
    matches!(code, 1..=60).then_some(code)
}

// "if TEE holds and t >= Tmin, the trigger is realised".
pub fn realises(row: &Row, code: u8, letter: u8) -> bool {
    trigger_ticks(row, code, letter).is_some_and(|t| holds(row.sets[TEE], letter) & (row.tmin <= t))
}

// "trigger aborted", at the first check or at the second: "If both happen, abort and start are both
// reported."
fn aborts(row: &Row, code: u8, letter: u8) -> bool {
    restarts(row, code, letter)
        | trigger_ticks(row, code, letter).is_some_and(|t| lapses(row, t, letter))
}

// The elapsed ticks with which the delay check is done at the letter, if it is.
fn delay_ticks(row: &Row, code: u8, letter: u8) -> Option<u8> {
    if realises(row, code, letter) {
        return Some(0);
    }
    matches!(code, 61..=120).then(|| code - DELAY)
}

// "action started": "if ASE holds and d >= Lmin".
fn acts(row: &Row, code: u8, letter: u8) -> bool {
    delay_ticks(row, code, letter).is_some_and(|d| holds(row.sets[ASE], letter) & (row.lmin <= d))
}

// "action completed": an action is on, or starts, and the row waits after the letter.
fn completes(row: &Row, code: u8, letter: u8, after: u8) -> bool {
    let on = matches!(code, 121..=254);
    (on | acts(row, code, letter)) & (after == WAITING)
}

// "which of these happened". "A row already broken has none."
pub fn events(row: &Row, code: u8, letter: u8) -> Happened {
    let after = code_after(row, code, letter);
    Happened {
        started: starts(row, code, letter),
        realised: realises(row, code, letter),
        aborted: aborts(row, code, letter),
        acting: acts(row, code, letter),
        completed: completes(row, code, letter, after),
        broke: (code != BROKEN) & (after == BROKEN),
    }
}

// The rows of a state whose trigger a letter realises, as a set: bit r is row r + 1.
pub fn realised_rows(table: &Table, state: u64, letter: u8) -> u64 {
    let mut set: u64 = 0;
    let mut bit: u64 = 1;
    let rows = table.rows.iter().zip(state.to_le_bytes());
    for (row, code) in rows.take(usize::from(table.count)) {
        if realises(row, code, letter) {
            set |= bit;
        }
        bit <<= 1;
    }
    set
}
