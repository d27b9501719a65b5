// Ticks of the watcher along random traces, from random states: the number, all phases and all
// events of each tick, and what the trace gives when it is played at once, held against the second
// reading of the rules. What differs is a set of bits, whose words tally.rt has.
use crate::counts::{AllCounts, count_events, given_counts, struck_counts};
use crate::starts::{any_codes, any_length, any_letters, tick_outcome, watch_of};
use crate::tally::{count_row, count_strike, count_tick};
use pass::{Ticked, Watch};
use random::numbers::{below, byte_below, mixed, one_in};
use random::rules::{Happened, KINDS, code_after, events};
use random::tables::Case;
use random::tally::{Tally, reported, unless};
use step::Events;
use table::{MOST_ROWS, Outcome, Table};
use watcher::Played;

// What a tick should give: whether it is taken, and each row's events and code after it.
#[derive(Clone, Copy, Debug, PartialEq, Eq)]
struct Right {
    outcome: Outcome,
    events: [Happened; MOST_ROWS],
    codes: [u8; MOST_ROWS],
}

fn right_tick(table: &Table, valid: bool, codes: [u8; MOST_ROWS], letter: u8) -> Right {
    let mut right = Right {
        outcome: tick_outcome(valid, table, &codes, letter),
        events: [Happened::default(); MOST_ROWS],
        codes,
    };
    if right.outcome.is_ok() {
        let used = usize::from(table.count);
        for (i, row) in table.rows.iter().enumerate().take(used) {
            right.events[i] = events(row, codes[i], letter);
            right.codes[i] = code_after(row, codes[i], letter);
        }
    }
    right
}

// Each row's events that the watcher gives, in the order of `Happened::kinds`.
fn given_events(given: [Events; MOST_ROWS]) -> [[bool; KINDS]; MOST_ROWS] {
    given.map(|events| {
        [
            events.started,
            events.realised,
            events.aborted,
            events.acting,
            events.completed,
            events.broken,
        ]
    })
}

fn same_codes(watch: Watch, codes: [u8; MOST_ROWS]) -> bool {
    watch.slots.map(phases::code) == codes.map(u16::from)
}

// The events with one of a row changed.
fn struck_events(seed: u64, events: [[bool; KINDS]; MOST_ROWS]) -> [[bool; KINDS]; MOST_ROWS] {
    let row = usize::from(byte_below(seed ^ 1, 8)) % MOST_ROWS;
    let event = usize::from(byte_below(seed ^ 2, 6)) % KINDS;
    let mut struck = events;
    struck[row][event] ^= true;
    struck
}

// A tick's answer, compared. If it is struck, an event in it is changed first.
fn compare_tick(seed: u64, ticked: Ticked, right: Right, struck: bool, tally: &mut Tally) -> u32 {
    let mut given = given_events(ticked.reply.events);
    if struck {
        given = struck_events(seed, given);
    }
    let same = given == right.events.map(|happened| happened.kinds());
    count_tick(tally, right.outcome.is_err());
    count_strike(tally, struck, !same);
    unless(ticked.reply.outcome == right.outcome, 1)
        | unless(same_codes(ticked.watch, right.codes), 2)
        | reported(struck, unless(same, 3))
}

// Counts the events of a tick, from the codes before it on.
fn count_rights(tally: &mut Tally, before: [u8; MOST_ROWS], right: Right) {
    let rows = right.events.iter().zip(before).zip(right.codes);
    for ((happened, before), after) in rows {
        count_row(tally, before, *happened, after);
    }
}

// Where a trace has come to: the watcher's state, the codes of the second reading and how often
// each event came up in it, the first refusal, and what differs so far.
#[derive(Clone, Copy, Debug, PartialEq, Eq)]
struct Course {
    watch: Watch,
    codes: [u8; MOST_ROWS],
    counts: AllCounts,
    outcome: Outcome,
    differs: u32,
}

impl Course {
    // One tick more, compared.
    fn advance(&mut self, seed: u64, case: &Case, letter: u8, struck: bool, tally: &mut Tally) {
        let codes = self.codes;
        let right = right_tick(&case.given, case.valid, codes, letter);
        let ticked = watcher::tick_table(case.given, self.watch, letter);
        self.watch = ticked.watch;
        self.codes = right.codes;
        count_events(&mut self.counts, &right.events);
        self.outcome = self.outcome.and(right.outcome);
        self.differs |= compare_tick(seed, ticked, right, struck, tally);
        count_rights(tally, codes, right);
    }

    // The trace played at once, compared with what its ticks gave. A refusal gives the first state,
    // and counts of 0. If it is struck, a count in the answer is changed first.
    fn compare_play(
        self,
        seed: u64,
        played: Played,
        start: [u8; MOST_ROWS],
        struck: bool,
        tally: &mut Tally,
    ) -> u32 {
        let (codes, right) = match self.outcome {
            Ok(()) => (self.codes, self.counts),
            Err(_) => (start, [[0; KINDS]; MOST_ROWS]),
        };
        let mut counts = given_counts(played.counts);
        if struck {
            counts = struck_counts(seed, counts);
        }
        let same = counts == right;
        count_strike(tally, struck, !same);
        self.differs
            | unless(played.outcome == self.outcome, 1)
            | unless(same_codes(played.watch, codes), 2)
            | reported(struck, unless(same, 4))
    }
}

// Ticks a table along a trace, and plays the trace. In one table of twenty a place is changed.
pub fn follow(case: Case, tally: &mut Tally) -> u32 {
    let own = mixed(case.seed ^ 6);
    let table = case.given;
    let codes = any_codes(own ^ 1, &table);
    let letters = any_letters(own ^ 2, table.signals);
    let trace = &letters[..any_length(own ^ 3)];
    let strike = usize::from(below(own ^ 4, 480));
    let start = watch_of(codes);
    let mut course = Course {
        watch: start,
        codes,
        counts: [[0; KINDS]; MOST_ROWS],
        outcome: tick_outcome(case.valid, &table, &codes, 0),
        differs: 0,
    };
    for (i, letter) in trace.iter().enumerate() {
        let seed = own ^ (16 * (i as u64) + 5);
        course.advance(seed, &case, *letter, i == strike, tally);
    }
    let played = watcher::play(table, start, trace);
    let struck = one_in(own ^ 7, 20);
    course.compare_play(own ^ 6, played, codes, struck, tally)
}
