// How often each event happened to each row. specs/Inner/Counts.antt follows this code.
ghost use Rattle.std.specs.Prelude.{◌≡◌};
ghost use Rattle.watcher.specs.Inner.Counts.{Room, AllRoom, add_events, add_all};

use crate::Counts;
use step::Events;
use table::MOST_ROWS;

// One tick's events of a row more.
fn with_events(counts: Counts, events: Events) -> Counts
    requires { Room counts }
    ensures { result ≡ add_events counts events }
{
    Counts {
        started: counts.started + u64::from(events.started),
        realised: counts.realised + u64::from(events.realised),
        aborted: counts.aborted + u64::from(events.aborted),
        acting: counts.acting + u64::from(events.acting),
        completed: counts.completed + u64::from(events.completed),
        broken: counts.broken + u64::from(events.broken),
    }
}

// One tick's events of all rows more.
pub(crate) fn add(counts: &mut [Counts; MOST_ROWS], events: [Events; MOST_ROWS])
    requires { AllRoom counts.old }
    ensures { counts.new ≡ add_all counts.old events }
{
    for (i, row) in counts.iter_mut().enumerate() {
        *row = with_events(*row, events[i]);
    }
}
