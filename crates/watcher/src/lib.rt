// The watcher: it moves all rows of a table on by one tick, which is one pass over them (crate
// `pass`, whose specs/Watch.antt and specs/Answer.antt say what is right), and plays a trace.
#![tactic(auto)]

mod tally;

ghost use Rattle.std.specs.Prelude.{◌≡◌, Err};
ghost use Rattle.pass.specs.Watch.{start_watch};
ghost use Rattle.pass.specs.Answer.{tick_answer};
ghost use Rattle.watcher.specs.Inner.Tables.{table_tick, table_play, stopped_by};

use pass::{Pass, Reply, Ticked, Watch};
use step::Phase;
use table::{MOST_ROWS, Outcome, Refusal, Row, Table};

// How often each event happened to a row.
// Kept: beside the flags of `step::Events`, as one generic for flags and counts would name neither.
#[derive(Clone, Copy, Debug, PartialEq, Eq, Default)]
pub struct Counts {
    pub started: u64,
    pub realised: u64,
    pub aborted: u64,
    pub acting: u64,
    pub completed: u64,
    pub broken: u64,
}

// What a trace of ticks gives: whether it was taken; the state after it; and how often each event
// happened to each row. If it was refused the state is the old one, and the counts are 0.
// Kept: an outcome beside values, of which theorems speak on refusal too (`play_kept`, `play_none`).
#[derive(Clone, Copy, Debug, PartialEq, Eq)]
pub struct Played {
    pub outcome: Outcome,
    pub watch: Watch,
    pub counts: [Counts; MOST_ROWS],
}

// The state before the first tick: all rows wait.
pub fn start() -> Watch
    ensures { result ≡ start_watch }
{
    Watch {
        slots: [Phase::Waiting; MOST_ROWS],
    }
}

// One tick of the rows that are lent, in file order, with the state by value.
// Refused with 17, 18 or 19, in this order; the state is then the one that was passed.
// Kept: signals, rows, state and letter apart, as a call is lent them (document 01).
#[tactic(auto, using(pass::proofs::Passes::pass_answer))]
pub fn tick_rows(signals: u8, rows: &[Row], watch: Watch, letter: u8) -> Ticked
    ensures { result ≡ tick_answer signals rows.now watch letter }
{
    Pass::begin(signals, rows.len(), watch, letter)
        .over(rows)
        .finish(watch)
}

// One tick on the machine: rows and state are lent, and the state is moved on. A refusal leaves it
// as it is.
pub fn tick(signals: u8, rows: &[Row], watch: &mut Watch, letter: u8) -> Reply
    ensures value { result
        ≡ (tick_answer signals rows.now watch.old letter).reply }
    ensures watch_after { watch.new
        ≡ (tick_answer signals rows.now watch.old letter).watch }
{
    let ticked = tick_rows(signals, rows, *watch, letter);
    *watch = ticked.watch;
    ticked.reply
}

// One tick of a table value. Refused with 17, 18 or 19, in this order; the state is then the one
// that was passed.
#[tactic(auto, using(crate::proofs::Tables::table_answer, crate::proofs::Tables::table_refused, table::proofs::Laws::table_valid_count))]
pub fn tick_table(table: Table, watch: Watch, letter: u8) -> Ticked
    ensures { result ≡ table_tick table watch letter }
{
    if !table::valid(table) {
        return pass::refused(17, watch);
    }
    let count = usize::from(table.count);
    tick_rows(table.signals, &table.rows[..count], watch, letter)
}

// A trace that is not played: the state is the one that was passed.
fn stopped(refusal: Refusal, watch: Watch) -> Played
    ensures { result ≡ stopped_by (Err refusal) watch }
{
    Played {
        outcome: Err(refusal),
        watch,
        counts: [Counts::default(); MOST_ROWS],
    }
}

// A trace of ticks of a table value. Refused with 17, 18, or 19 for any of its letters, in this
// order; the state is then the one that was passed.
#[tactic(auto, using(crate::proofs::Tables::playing_refused, crate::proofs::Tables::playing_stops))]
pub fn play(table: Table, watch: Watch, trace: &[u8]) -> Played
    ensures { result ≡ table_play table watch trace.now }
{
    // Letter 0 is never too large, so this tick only tests 17 and 18.
    if let Err(refusal) = tick_table(table, watch, 0).reply.outcome {
        return stopped(refusal, watch);
    }
    let mut last = watch;
    let mut counts = [Counts::default(); MOST_ROWS];
    for letter in trace {
        let ticked = tick_table(table, last, *letter);
        if let Err(refusal) = ticked.reply.outcome {
            return stopped(refusal, watch);
        }
        tally::add(&mut counts, ticked.reply.events);
        last = ticked.watch;
    }
    Played {
        outcome: Ok(()),
        watch: last,
        counts,
    }
}
