// A trace goes three ways: played at once as a table value, and its letters ticked one by one, of
// the table value and with rows and state lent. What each way gives is a `Run`.
use lending::MOST_LENT;
use pass::{Ticked, Watch};
use step::Events;
use table::{MOST_ROWS, Outcome, Row, Table};
use watcher::{Counts, Played};

// No trace here is longer.
pub(crate) const MOST_LETTERS: usize = 6;

// The outcome, the state after the trace and how often each event happened to each row; how many
// ticks were made, and the events of each, which a trace that was played does not give. A refused
// tick is the last, and the counts are then 0.
#[derive(Clone, Copy, Debug, PartialEq, Eq)]
pub(crate) struct Run {
    pub answer: Played,
    pub ticks: usize,
    pub events: [[Events; MOST_ROWS]; MOST_LETTERS],
}

// Counts a row's events at a tick.
fn count(counts: &mut Counts, events: &Events) {
    counts.started = counts.started.saturating_add(u64::from(events.started));
    counts.realised = counts.realised.saturating_add(u64::from(events.realised));
    counts.aborted = counts.aborted.saturating_add(u64::from(events.aborted));
    counts.acting = counts.acting.saturating_add(u64::from(events.acting));
    counts.completed = counts.completed.saturating_add(u64::from(events.completed));
    counts.broken = counts.broken.saturating_add(u64::from(events.broken));
}

impl Run {
    fn without_ticks(answer: Played) -> Run {
        Run {
            answer,
            ticks: 0,
            events: [[Events::default(); MOST_ROWS]; MOST_LETTERS],
        }
    }

    // Puts one tick more.
    fn put(&mut self, ticked: Ticked) {
        let events = ticked.reply.events;
        if let Some(place) = self.events.get_mut(self.ticks) {
            *place = events;
            self.ticks = self.ticks.saturating_add(1);
        }
        for (counts, events) in self.answer.counts.iter_mut().zip(events.iter()) {
            count(counts, events);
        }
        self.answer.outcome = ticked.reply.outcome;
        self.answer.watch = ticked.watch;
    }
}

// What is not played or ticked: no event happened.
fn still(outcome: Outcome, watch: Watch) -> Played {
    Played {
        outcome,
        watch,
        counts: [Counts::default(); MOST_ROWS],
    }
}

// A trace, letter by letter. A refusal gives back the state that was passed, as `watcher::play`
// does. Before the first tick: letter 0 is never too large, so a tick with it only tests 17 and 18.
fn by_ticks<F: Fn(Watch, u8) -> Ticked>(tick: F, watch: Watch, trace: &[u8]) -> Run
    requires { F.IsAlwaysCallable tick }
{
    let tested = tick(watch, 0).reply.outcome;
    let mut run = Run::without_ticks(still(tested, watch));
    for letter in trace {
        let ticked = tick(run.answer.watch, *letter);
        run.put(ticked);
        if run.answer.outcome.is_err() {
            run.answer = still(run.answer.outcome, watch);
            break;
        }
    }
    run
}

// A trace, letter by letter, of a table value.
pub(crate) fn by_table(table: Table, watch: Watch, trace: &[u8]) -> Run {
    let tick = |watch: Watch, letter: u8| watcher::tick_table(table, watch, letter);
    by_ticks(tick, watch, trace)
}

// The same with rows that are lent: those of the table value, and the first one once more after
// them.
pub(crate) fn by_rows(table: Table, watch: Watch, trace: &[u8]) -> Run {
    let mut rows: [Row; MOST_LENT] = [table.rows[0]; MOST_LENT];
    rows[..MOST_ROWS].copy_from_slice(&table.rows);
    let count = usize::from(table.count);
    let tick = |watch: Watch, letter: u8| {
        lending::tick_lent(table.signals, rows, count, watch, letter)
    };
    by_ticks(tick, watch, trace)
}

// A trace at once.
pub(crate) fn by_play(table: Table, watch: Watch, trace: &[u8]) -> Run {
    Run::without_ticks(watcher::play(table, watch, trace))
}
