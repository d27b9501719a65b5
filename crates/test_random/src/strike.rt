// Now and then one place that is compared is changed after the search, to see that the comparison
// notices it.
use crate::lent::{Held, Lengths};
use random::numbers::{below, byte_below, mixed, one_in};
use std::ops::BitXorAssign;
use verdict::{Finding, Found, Summary};

// The lists: states, lost numbers, index, trace, and the set of rows that never fire, whose places
// are its bits.
#[derive(Clone, Copy, Debug, PartialEq, Eq)]
enum List {
    States,
    Lost,
    Index,
    Trace,
    Never,
}

const BITS: usize = 64;

// A place of a list.
#[derive(Clone, Copy, Debug, PartialEq, Eq)]
pub struct Strike {
    list: List,
    at: usize,
}

// One place in one table of twenty, if the list that is picked has any. The set is there only with
// a verdict.
pub fn any_strike(seed: u64, lengths: Lengths, verdict: bool) -> Option<Strike> {
    let own = mixed(seed);
    if !one_in(own, 20) {
        return None;
    }
    let (list, places) = match byte_below(own ^ 1, 5) {
        0 => (List::States, lengths.states),
        1 => (List::Lost, lengths.lost),
        2 => (List::Index, lengths.index),
        3 => (List::Trace, lengths.trace),
        _ => (List::Never, if verdict { BITS } else { 0 }),
    };
    let at = usize::from(below(own ^ 2, places as u16));
    (0 < places).then_some(Strike { list, at })
}

// A list with a place changed.
fn flip<T: BitXorAssign<T> + From<u8>>(list: &mut [T], at: usize)
    requires { (a : T) (b : T) → T.can_bitxor_assign a b }
{
    if let Some(n) = list.get_mut(at) {
        *n ^= T::from(1);
    }
}

// The lists with the place changed, if there is one.
pub fn struck(held: Held, strike: Option<Strike>) -> Held {
    let mut held = held;
    if let Some(Strike { list, at }) = strike {
        match list {
            List::States => flip(&mut held.states, at),
            List::Lost => flip(&mut held.lost, at),
            List::Index => flip(&mut held.index, at),
            List::Trace => flip(&mut held.trace, at),
            List::Never => {}
        }
    }
    held
}

fn strike_summary(summary: Summary, at: usize) -> Summary {
    let mut struck = summary;
    if at < BITS {
        struck.lists.never ^= 1 << at;
    }
    struck
}

// The answer with a row put into its set of rows that never fire, or taken out, if it is the one.
pub fn struck_answer(found: Found, strike: Option<Strike>) -> Found {
    match (found, strike) {
        (
            Ok(finding),
            Some(
                Strike {
                    list: List::Never,
                    at,
                },
            ),
        ) => Ok(match finding {
            Finding::Sound(summary) => Finding::Sound(strike_summary(summary, at)),
            Finding::Trapped(summary, trap) => Finding::Trapped(strike_summary(summary, at), trap),
        }),
        _ => found,
    }
}
