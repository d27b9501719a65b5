// Totals, tick by tick, and their sums, row by row. specs/Inner/Tally.antt follows this code.
ghost use Rattle.std.specs.Prelude.{◌≡◌};
ghost use Rattle.step.specs.Events.{is_open};
ghost use Rattle.load.specs.Inner.Tally.{Room, AllRoom, with_tick, AllTicked};
ghost use Rattle.load.specs.Inner.Tally.{SumRoom, with_row, Grown};

use crate::{Sums, Totals};
use pass::Watch;
use step::{Events, Phase};
use table::MOST_ROWS;

// Whether a row is open: in delay or action.
#[tactic(auto, unfolding(step::specs::Events::is_open))]
fn is_open(phase: Phase) -> bool
    ensures { result ≡ is_open phase }
{
    matches!(phase, Phase::Delay(_) | Phase::Action(_))
}

// A row's totals with one tick more: what happened to it, and its phase then.
fn with_tick(totals: Totals, events: Events, phase: Phase) -> Totals
    requires { Room totals }
    ensures { result ≡ with_tick totals events phase }
{
    Totals {
        realised: totals.realised + u16::from(events.realised),
        completed: totals.completed + u16::from(events.completed),
        breaks: totals.breaks + u16::from(events.broken),
        pending: u16::from(is_open(phase)),
    }
}

// The same of all rows.
pub(crate) fn add(totals: &mut [Totals; MOST_ROWS], events: [Events; MOST_ROWS], watch: Watch)
    requires { AllRoom totals.old }
    ensures { AllTicked totals.old events watch totals.new }
{
    for (i, row) in totals.iter_mut().enumerate() {
        *row = with_tick(*row, events[i], watch.slots[i]);
    }
}

// One row more in the sums.
pub(crate) fn with_row(sums: Sums, totals: Totals) -> Sums
    requires { SumRoom sums }
    ensures value { result ≡ with_row sums totals }
    ensures grown { Grown sums result }
{
    Sums {
        realised: sums.realised + u32::from(totals.realised),
        completed: sums.completed + u32::from(totals.completed),
        breaks: sums.breaks + u32::from(totals.breaks),
        pending: sums.pending + u32::from(totals.pending),
    }
}
