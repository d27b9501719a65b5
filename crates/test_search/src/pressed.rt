// Tables with triggers that are pressed again as they abort (document 02, ask 4), and that would
// have another answer if they were not.
use crate::show_file;
use std::io;
use std::rt::Runtime;

// `a` starts the trigger of row 1 and realises row 2, which wants letter 0 three ticks later:
// (1, 61). Row 1 is realised where `a` ends, which breaks it unless `c` holds there. From (1, 61)
// letter 1 leads to (2, 62), and 2 realises row 1: (121, 62). In (2, 62) letter 2 does so too:
// (121, 63). Letter 1 aborts the trigger there, and starts it again: (1, 63). Now letter 0 breaks
// row 1, and the others row 2. The action is over with the next letter, whichever it is: (121, 62)
// leads to (0, 63), and from there, as from (121, 63), letter 0 leads to the start.
// Trapped, 7 states, lost 1, trace 1 1 1: states 0 15617 15874 15993 16129 16249 16128, lost
// 0 0 0 0 1 0 0. If row 1 waited after the abort, letter 1 would lead from (2, 62) to (0, 63), and
// the table would be sound.
fn trap(rt: &impl Runtime) -> io::Result<()> {
    let name = "pressed_trap.pnp";
    show_file(rt, name, 8, 9, 4)?;
    // Place for two letters: 21, scratch as above, the buffer unchanged.
    show_file(rt, name, 7, 7, 2)
}

// `a` starts both triggers: (1, 1). From there 0 leads back, and 2 realises row 1, which now wants
// 3 at the next tick: (61, 0). Letter 1 aborts both triggers and starts them again: (1, 1). Letter
// 3 would realise both, and breaks row 2. From (61, 0) 3 completes row 1 and starts the trigger of
// row 2: (0, 1). From there 0 and 2 lead back, 3 breaks row 2, and 1 starts row 1 as row 2 aborts
// and starts again: (1, 1).
// Sound, 4 states: states 0 257 61 256. Row 2 is realised by 3 alone, which breaks it: never 2. If
// it waited after the abort, (0, 1) would lead to (1, 0), from there 3 to (61, 1), and then row 1
// would want the letter that breaks row 2.
fn sound(rt: &impl Runtime) -> io::Result<()> {
    show_file(rt, "pressed_sound.pnp", 4, 6, 1)
}

// Two triggers that start and go on at every letter and have no end. The first aborts and starts
// again every 2 ticks, the second every 3, and both at once every 6: (1, 1), (2, 2), (1, 3),
// (2, 1), (1, 2), (2, 3), and (1, 1) again. No row waits again, as each would with one tick more
// between its triggers, in 12 states.
// Sound, 7 states: states 0 257 514 769 258 513 770. No letter realises a row: never 1 2.
fn fewer(rt: &impl Runtime) -> io::Result<()> {
    let name = "pressed_fewer.pnp";
    show_file(rt, name, 7, 9, 1)?;
    // Room 6: 20, and no list.
    show_file(rt, name, 8, 6, 1)
}

pub(crate) fn show_pressed(rt: &impl Runtime) -> io::Result<()> {
    trap(rt)?;
    sound(rt)?;
    fewer(rt)
}
