// The load: what the rows of a table do in a burn-in, as totals. specs/Load.antt says what is
// right.
//
// The load is a number of 32 bits, which changes at each tick and then gives the letter. No list
// of letters is kept: a run takes the same memory for any number of ticks.
#![tactic(auto)]

mod tally;

ghost use Rattle.std.specs.Prelude.{cond, ◌≡◌, leb, take, Ok, Err};
ghost use Rattle.load.specs.Load.{next_number, letter_of, sums_of, longest_run, not_run};
ghost use Rattle.load.specs.Load.{run_answer};

use table::{MOST_ROWS, Outcome, Refusal, Table};

// "A run has at most 65,535 ticks."
pub const LONGEST_RUN: u32 = 65535;

// The number's factor, and what is added to it.
const FACTOR: u32 = 1664525;

const ADDED: u32 = 1013904223;

// The letter is the number divided by this.
const PART: u32 = 67108864;

// How often triggers were realised and actions completed, and how many rows broke, and are open at
// the end.
#[derive(Clone, Copy, Debug, PartialEq, Eq, Default)]
pub struct Figures<N> {
    pub realised: N,
    pub completed: N,
    pub breaks: N,
    pub pending: N,
}

// What a row did; and the same of several rows together.
pub type Totals = Figures<u16>;

pub type Sums = Figures<u32>;

// What a run gives: whether it was taken, and the totals of each row, which are 0 if it was
// refused, and for a row that is not used.
// Kept: an outcome beside values, of which theorems speak on refusal too (`refused_zeros`).
#[derive(Clone, Copy, Debug, PartialEq, Eq)]
pub struct Ran {
    pub outcome: Outcome,
    pub totals: [Totals; MOST_ROWS],
}

// The load's number one tick later.
#[tactic(auto, unfolding(crate::specs::Load::next_number))]
pub fn next_number(number: u32) -> u32
    ensures { result ≡ next_number number }
{
    number.wrapping_mul(FACTOR).wrapping_add(ADDED)
}

// The letter that a number gives where there are so many signals. With six or more it is the
// number's part itself, which is below 64.
#[tactic(auto, unfolding(crate::specs::Load::letter_of))]
pub fn letter_of(signals: u8, number: u32) -> u8
    ensures { result ≡ letter_of signals number }
{
    (number / PART) as u8 % letters::width_of(signals)
}

// The sums of the first `rows` rows, or of all if there are fewer.
// Kept: totals and a count, as a run gives totals and its table the count of rows.
pub fn sum(totals: [Totals; MOST_ROWS], rows: u8) -> Sums
    ensures { result ≡ sums_of (take rows totals) }
{
    let mut sums = Sums::default();
    for row in totals.iter().take(usize::from(rows)) {
        sums = tally::with_row(sums, *row);
    }
    sums
}

// What there is of a table that is not run: a refusal, and zeros.
pub fn refused(refusal: Refusal) -> Ran
    ensures { result ≡ not_run (Err refusal) }
{
    Ran {
        outcome: Err(refusal),
        totals: [Totals::default(); MOST_ROWS],
    }
}

// Whether a run is taken, or the number for which it is refused: 17 comes before 22.
// Kept: numbers, by which documents, theorems and reports name a refusal.
fn judge(valid: bool, ticks: u32) -> Result<(), u8>
    ensures { result ≡ cond valid (cond (leb ticks longest_run) (Ok tt) (Err 22)) (Err 17) }
{
    if !valid {
        return Err(17);
    }
    if LONGEST_RUN < ticks {
        return Err(22);
    }
    Ok(())
}

// So many ticks of a load that starts from a number, with all rows waiting. Refused with 17, or
// with 22 if there are too many ticks.
#[tactic(auto, using(crate::proofs::Running::running_refused))]
pub fn run(table: Table, start: u32, ticks: u32) -> Ran
    ensures { result ≡ run_answer table start ticks }
{
    if let Err(number) = judge(table::valid(table), ticks) {
        return refused(Refusal { number, line: 0 });
    }
    let mut number = start;
    let mut watch = watcher::start();
    let mut totals = [Totals::default(); MOST_ROWS];
    for _ in 0..ticks {
        number = next_number(number);
        let letter = letter_of(table.signals, number);
        let ticked = watcher::tick_table(table, watch, letter);
        watch = ticked.watch;
        tally::add(&mut totals, ticked.reply.events, watch);
    }
    Ran {
        outcome: Ok(()),
        totals,
    }
}
