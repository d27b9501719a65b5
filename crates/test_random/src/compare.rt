// The first search's answer and lists held against what is expected. What differs is a set of bits,
// whose words tally.rt has.
use crate::expected::{Trap, Values};
use crate::lent::{Held, Lengths};
use random::tally::unless;
use table::Refusal;
use verdict::{Finding, Found};

fn values_of(finding: Finding) -> Values {
    let (summary, trap) = match finding {
        Finding::Sound(summary) => (summary, None),
        Finding::Trapped(summary, trap) => (summary, Some(trap)),
    };
    Values {
        count: usize::from(summary.count),
        never: summary.lists.never,
        trap: trap.map(|trap| Trap {
            length: usize::from(trap.length),
            lost: trap.lost,
        }),
    }
}

// The answer, and "every other number or mark in the answer is 0 or absent".
pub fn compare_answers(found: Found, right: Result<Values, u8>) -> u32 {
    let given = found.map(values_of);
    let right = right.map_err(|number| Refusal { number, line: 0 });
    let refused = unless(given.err() == right.err(), 1);
    let trapped = |values: Values| values.trap.is_some();
    let verdict = unless(given.map(trapped).ok() == right.map(trapped).ok(), 2);
    let given = given.unwrap_or_default();
    let right = right.unwrap_or_default();
    refused
        | verdict
        | unless(
            given.length_and_lost().length == right.length_and_lost().length,
            3,
        )
        | unless(
            given.length_and_lost().lost == right.length_and_lost().lost,
            4,
        )
        | unless(given.count == right.count, 5)
        | unless(given.never == right.never, 6)
}

// The places that were lent.
pub fn compare_lists(given: &Held, right: &Held, lengths: Lengths) -> u32 {
    let states = given.states[..lengths.states] == right.states[..lengths.states];
    let lost = given.lost[..lengths.lost] == right.lost[..lengths.lost];
    let index = given.index[..lengths.index] == right.index[..lengths.index];
    let trace = given.trace[..lengths.trace] == right.trace[..lengths.trace];
    unless(states, 7) | unless(lost, 8) | unless(index, 9) | unless(trace, 10)
}
