// Tables with rows that others make impossible, or that never fire by themselves.
use crate::show_file;
use std::io;
use std::rt::Runtime;

// Row 1 breaks at letter 3, `a` and `c` together, at any tick; row 2 waits for just that. The other
// letters leave both rows waiting, and realise row 1. Sound, 1 state: all scratch 0. Row 2 never
// fires: row 1 makes it impossible.
fn impossible(rt: &impl Runtime) -> io::Result<()> {
    show_file(rt, "impossible.pnp", 2, 1, 1)
}

// The letters with `a` realise both rows; row 2 is done at once, but row 1 breaks in that tick, so
// that the tick counts for neither. Sound, 1 state, and no row ever fires.
fn same_tick(rt: &impl Runtime) -> io::Result<()> {
    show_file(rt, "same_tick.pnp", 1, 1, 1)
}

// Letter 1, or 3, leads to (61, 1): it realises row 1, which breaks three ticks later, and starts
// the trigger of row 2. Every letter leads on to (62, 2). There `c` realises row 2, which is done
// and waits again: (63, 0), by letter 2; the others lead to (63, 3). No letter survives in these.
// Trapped, 5 states, lost 3, trace 1: states 0 317 574 831 63, lost 0 3 2 1 1. Row 2 fires past the
// trace, in a doomed state alone: never -.
fn fires_doomed(rt: &impl Runtime) -> io::Result<()> {
    let name = "fires_doomed.pnp";
    show_file(rt, name, 6, 5, 2)?;
    // 21, scratch as above, and no list.
    show_file(rt, name, 5, 5, 0)
}

// The trigger of row 1 goes on while `a` holds, up to 5 ticks, and has no end: it aborts then, and
// starts again if `a` still holds. Row 2 is done in the tick of each `c`. Sound, 6 states: states
// 0 to 5. No letter ever realises row 1, broken or not.
fn no_end(rt: &impl Runtime) -> io::Result<()> {
    show_file(rt, "no_end.pnp", 6, 7, 0)?;
    // Room 5: 20, and no list.
    show_file(rt, "no_end.pnp", 6, 5, 0)
}

pub(crate) fn show_never(rt: &impl Runtime) -> io::Result<()> {
    impossible(rt)?;
    same_tick(rt)?;
    fires_doomed(rt)?;
    no_end(rt)
}
