// The watcher's state, what a tick says, and one pass over the rows of a table: what it has found
// so far, by value. specs/Watch.antt and specs/Answer.antt say what is right,
// specs/Inner/Pass.antt follows this code.
//
// A tick is one pass: each row is tested for number 17, its phase for number 18, and moved on. The
// pass is a value, so that rows that are lent and rows of a table value go the same way.
#![tactic(auto)]

ghost use Rattle.std.specs.Prelude.{◌≡◌, drop};
ghost use Rattle.letters.specs.Lists.{every};
ghost use Rattle.step.specs.Valid.{is_waiting};
ghost use Rattle.pass.specs.Watch.{phases_of};
ghost use Rattle.pass.specs.Answer.{refused_with};
ghost use Rattle.pass.specs.Inner.Pass.{begun, row_taken, pass_over, finished};

use step::{Events, Phase};
use table::{MOST_ROWS, Outcome, Refusal, Row};

// The watcher's state: the phase of each row, in file order. An unused row is waiting.
#[derive(Clone, Copy, Debug, PartialEq, Eq)]
pub struct Watch {
    pub slots: [Phase; MOST_ROWS],
}

// What a tick says: whether it was taken, and what happened to each row, which is nothing if it was
// refused.
// Kept: an outcome beside values, of which theorems speak on refusal too (`refused_none`).
#[derive(Clone, Copy, Debug, PartialEq, Eq)]
pub struct Reply {
    pub outcome: Outcome,
    pub events: [Events; MOST_ROWS],
}

// What a tick gives, and the state after it, which is the old one if it was refused.
#[derive(Clone, Copy, Debug, PartialEq, Eq)]
pub struct Ticked {
    pub reply: Reply,
    pub watch: Watch,
}

// Whether the rows (17) and the phases (18) passed so far, and the state with the rows so far moved
// on, with what happened to each.
#[derive(Clone, Copy, Debug, PartialEq, Eq)]
pub struct Pass {
    pub signals: u8,
    pub letter: u8,
    pub rules: bool,
    pub phases: bool,
    pub watch: Watch,
    pub events: [Events; MOST_ROWS],
}

// A refusal with a number and no line: the state is the one that was passed.
// Kept: numbers, by which documents, theorems and reports name a refusal.
pub fn refused(number: u8, watch: Watch) -> Ticked
    ensures { result ≡ refused_with watch number }
{
    let none = step::no_events();
    let reply = Reply {
        outcome: Err(Refusal { number, line: 0 }),
        events: [none; MOST_ROWS],
    };
    Ticked { reply, watch }
}

// Whether all rows from place n on wait.
#[tactic(auto, unfolding(letters::specs::Lists::every))]
fn rest_waiting(watch: Watch, n: usize) -> bool
    ensures { result ≡ every is_waiting (drop n (phases_of watch)) }
{
    watch
        .slots
        .iter()
        .skip(n)
        .all(|phase| phases::is_waiting(*phase))
}

impl Pass {
    // Before the first of n rows: what the counts and the unused rows say.
    // Kept: signals, state and letter apart, as the watcher's calls are lent them (document 01).
    #[tactic(auto, unfolding(crate::specs::Inner::Pass::begun))]
    pub fn begin(signals: u8, n: usize, watch: Watch, letter: u8) -> Pass
        ensures { result ≡ begun signals n watch letter }
    {
        Pass {
            signals,
            letter,
            rules: table::counts_allowed(signals, n),
            phases: rest_waiting(watch, n),
            watch,
            events: [step::no_events(); MOST_ROWS],
        }
    }

    // Row i is tested and moved on. A row beyond the limit is passed by: `begin` has turned it down.
    #[tactic(auto, unfolding(crate::specs::Inner::Pass::row_taken))]
    pub fn take_row(mut self, i: usize, row: Row) -> Pass
        ensures { result ≡ row_taken self i row }
    {
        if MOST_ROWS <= i {
            return self;
        }
        let phase = self.watch.slots[i];
        let stepped = step::step_row(row, self.letter, phase);
        self.rules &= table::rows::row_valid(self.signals, row);
        self.phases &= phases::phase_valid(row, phase);
        self.watch.slots[i] = stepped.phase;
        self.events[i] = stepped.events;
        self
    }

    // All rows that are lent, in file order.
    #[tactic(auto, using(crate::proofs::Passes::pass_next, crate::proofs::Passes::pass_end))]
    pub fn over(mut self, rows: &[Row]) -> Pass
        ensures { result ≡ pass_over rows.now 0 self }
    {
        for (i, row) in rows.iter().enumerate() {
            self = self.take_row(i, *row);
        }
        self
    }

    // After the last row: the first number that fits, or the state moved on.
    #[tactic(auto, unfolding(crate::specs::Inner::Pass::finished, crate::specs::Answer::answered))]
    pub fn finish(self, watch: Watch) -> Ticked
        ensures { result ≡ finished self watch }
    {
        if !self.rules {
            return refused(17, watch);
        }
        if !self.phases {
            return refused(18, watch);
        }
        if !letters::letter_valid(self.signals, self.letter) {
            return refused(19, watch);
        }
        let events = self.events;
        let reply = Reply {
            outcome: Ok(()),
            events,
        };
        Ticked {
            reply,
            watch: self.watch,
        }
    }
}
