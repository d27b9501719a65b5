// One tick for a caller that has rows and state by value: both are lent to the watcher's `tick`.
// specs/Answer.antt of crate `pass` says what is right.
#![tactic(auto)]

ghost use Rattle.std.specs.Prelude.{◌≡◌, take};
ghost use Rattle.pass.specs.Answer.{tick_answer};

use pass::{Ticked, Watch};
use table::{MOST_ROWS, Row};

// The rows that a program can lend by `tick_lent`: one more than a table has, which is refused.
pub const MOST_LENT: usize = MOST_ROWS + 1;

// One tick with rows and state by value: the first `count` rows, or all if there are fewer, and a
// copy of the state are lent to `tick`. Refused with 17, 18 or 19, in this order; the state is then
// the one that was passed.
pub fn tick_lent(
    signals: u8,
    rows: [Row; MOST_LENT],
    count: usize,
    watch: Watch,
    letter: u8,
) -> Ticked
    ensures { result ≡ tick_answer signals (take count rows) watch letter }
{
    let lent = &rows[..count.min(MOST_LENT)];
    let mut state = watch;
    let reply = watcher::tick(signals, lent, &mut state, letter);
    Ticked {
        reply,
        watch: state,
    }
}
