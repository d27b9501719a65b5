// How often each event came up in a trace, of each row.
use random::numbers::byte_below;
use random::rules::{Happened, KINDS};
use table::MOST_ROWS;
use watcher::Counts;

// The counts of each row, in the order of its events.
pub type AllCounts = [[u64; KINDS]; MOST_ROWS];

// Counts the events of a tick.
pub fn count_events(counts: &mut AllCounts, events: &[Happened; MOST_ROWS]) {
    for (row, happened) in counts.iter_mut().zip(events.iter()) {
        for (n, yes) in row.iter_mut().zip(happened.kinds()) {
            *n = n.saturating_add(u64::from(yes));
        }
    }
}

// The counts that the watcher gives.
pub fn given_counts(given: [Counts; MOST_ROWS]) -> AllCounts {
    given.map(|counts| {
        [
            counts.started,
            counts.realised,
            counts.aborted,
            counts.acting,
            counts.completed,
            counts.broken,
        ]
    })
}

// The counts with one of them changed.
pub fn struck_counts(seed: u64, counts: AllCounts) -> AllCounts {
    let place = usize::from(byte_below(seed ^ 1, 48));
    let mut struck = counts;
    struck[place / KINDS % MOST_ROWS][place % KINDS] ^= 1;
    struck
}
