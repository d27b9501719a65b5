// Table files run through the reader and the search, with two scratch lists and a trace buffer of
// given lengths, and each of them with six indexes (indexes.rt). Every place of the lists is 7
// before the call. Above each case stands its answer, worked out by hand from documents 01 and 02.
// Every row fires, `never -`, unless it says otherwise.
// Letters of the signals `a c`: 0 neither, 1 `a`, 2 `c`, 3 both.
#![tactic(auto)]

mod indexes;
mod long;
mod never;
mod pressed;
mod print;
mod run;

use indexes::show_indexes;
use long::show_long;
use never::show_never;
use pressed::show_pressed;
use print::{print_found, print_part, print_trace};
use run::{ALL, ANSWER, LOST, TRACE, alike, run};
use std::fs::File;
use std::io;
use std::rt::{Files, Runtime};
use table::{Row, Table};

// One case: the sizes of states, lost numbers and the trace buffer. Prints what the search answers,
// and what it leaves there, and how it does with other indexes.
fn show(rt: &impl Print, name: &str, table: Table, a: usize, d: usize, t: usize) -> io::Result<()> {
    print!(rt; "{name} {a} {d} {t}: ")?;
    let first = run(table, a, d, 0, t);
    let held = &first.held;
    let length = print_found(rt, first.found)?;
    print_trace(rt, length, held, t)?;
    print_part(rt, "\n  states", held, 0, a)?;
    print_part(rt, "\n  lost", held, LOST, d)?;
    print_part(rt, "\n  buffer", held, TRACE, t)?;
    show_indexes(rt, &first, table, a, d, t)
}

// The table of a file; the empty table if the reader refuses the file.
fn table_in(rt: &(impl Print + Files), name: &str) -> io::Result<Table> {
    let Ok(mut file) = File::open(rt, name) else {
        print!(rt; "no such file: ")?;
        return Ok(reader::empty());
    };
    let mut buffer = [0u8; 5000];
    let bytes: &[u8] = match input::read_all(&mut file, &mut buffer) {
        Ok(n) => &buffer[..n],
        Err(_) => b"",
    };
    Ok(reader::read(bytes).table)
}

fn show_file(rt: &impl Runtime, name: &str, a: usize, d: usize, t: usize) -> io::Result<()> {
    show(rt, name, table_in(rt, name)?, a, d, t)
}

// P: the states 0 and 61, which letter 1 leads to. In 61 the letters 0 and 1 break the row, and 2
// leads back. Sound, 2 states: states 0 61, else 0; the buffer unchanged.
fn row_p(rt: &impl Runtime) -> io::Result<()> {
    let name = "p.pnp";
    show_file(rt, name, 12, 12, 12)?;
    // The same where the room is no more than the states.
    show_file(rt, name, 2, 2, 0)?;
    // The same in lists of different lengths, each 0 to its own end.
    show_file(rt, name, 2, 12, 4)?;
    show_file(rt, name, 12, 2, 4)?;
    show_file(rt, name, 5, 3, 4)?;
    // Room 1: refused with 20, all scratch 0, the buffer unchanged.
    show_file(rt, name, 1, 1, 3)?;
    show_file(rt, name, 1, 12, 4)?;
    show_file(rt, name, 12, 1, 4)
}

// Q: the states 0 to 3, each by letter 1 from the one before, and from 3 letter 1 leads to 1 again.
// In 2 and 3 the letters with `c` realise the trigger, which breaks the row at once; 0 leads back.
// Sound, 4 states. The broken states take no room, and a row that breaks in the tick in which it is
// realised does not fire: never 1.
fn row_q(rt: &impl Runtime) -> io::Result<()> {
    let name = "q.pnp";
    show_file(rt, name, 4, 4, 0)?;
    show_file(rt, name, 5, 8, 2)?;
    // Room 3: 20.
    show_file(rt, name, 5, 3, 2)
}

// S: letter 3 leads to 121, from there 2 to 122, and `a` from both back to 0. Letter 1 breaks the
// row at the start, 0 in 121, 0 and 2 in 122. Sound, 3 states.
fn row_s(rt: &impl Runtime) -> io::Result<()> {
    let name = "s.pnp";
    show_file(rt, name, 3, 3, 1)?;
    show_file(rt, name, 4, 5, 1)
}

// The report's table: letter 1 brings both rows to 61, and each letter then breaks one of them.
// Trapped, 2 states, lost 1, trace 1: states 0 and 61 + 61 * 256 = 15677, lost 0 1.
fn report(rt: &impl Runtime) -> io::Result<()> {
    let name = "report.pnp";
    // Buffer 1 7 7, then 1.
    show_file(rt, name, 4, 4, 3)?;
    show_file(rt, name, 2, 2, 1)?;
    // No place for the trace: 21, scratch as above.
    show_file(rt, name, 2, 5, 0)?;
    // Room 1: 20 although there is a trap, also where the trace has no place: 20 comes before 21.
    show_file(rt, name, 1, 4, 3)?;
    show_file(rt, name, 1, 1, 0)
}

// An action that never starts: letter 1 leads to 61, and every letter from there to 62, to 63 and
// then to broken. Trapped, 4 states, lost 3, trace 1: lost 0 3 2 1. The trace ends in 61, not in
// 63, where no letter survives.
fn no_start(rt: &impl Runtime) -> io::Result<()> {
    let name = "no_start.pnp";
    show_file(rt, name, 5, 7, 2)?;
    // 21, scratch as above.
    show_file(rt, name, 4, 4, 0)?;
    // Room 3: 20.
    show_file(rt, name, 3, 12, 12)
}

// Each letter breaks one of two rows at the first tick. Trapped, 1 state, lost 1, empty trace:
// lost 1, all else in the scratch 0, the buffer unchanged. Both rows are realised by every letter,
// and no tick counts: never 1 2.
fn at_once(rt: &impl Runtime) -> io::Result<()> {
    let name = "at_once.pnp";
    show_file(rt, name, 3, 2, 3)?;
    // An empty trace fits an empty buffer.
    show_file(rt, name, 1, 1, 0)?;
    // Room 0: 20.
    show_file(rt, name, 0, 0, 0)?;
    show_file(rt, name, 3, 0, 1)?;
    show_file(rt, name, 0, 4, 1)
}

// `a` lets 3 ticks pass before its row breaks, `c` 1 tick. Letter 1 leads to (61, 0), 2 to (0, 61)
// and 3 to (61, 61). From (61, 0) 0 leads to (62, 0) and 2 to (62, 61); from (62, 0) 0 leads to
// (63, 0) and 2 to (63, 61). No letter survives in the others.
// Trapped, 8 states, lost 3, trace 1: states 0 61 15616 15677 62 15678 63 15679, lost
// 0 3 1 1 2 1 1 1. The trace 2 is as long and leads to a state with lost number 1; it is not shown.
fn fork(rt: &impl Runtime) -> io::Result<()> {
    let name = "fork.pnp";
    show_file(rt, name, 9, 9, 2)?;
    // Room 7: 20.
    show_file(rt, name, 9, 7, 2)
}

// A row that delays or acts: letter 1 leads to the delay 61, 3 to the action 121. From 61 letters
// with `c` lead to 121 and the others to 62, from there `c` to 121, where no letter survives.
// Trapped, 4 states, lost 3, trace 1: states 0 61 121 62, lost 0 3 1 2. The lost number of 61 hangs
// on that of 62, and this on that of 121, entered before.
fn delay_or_action(rt: &impl Runtime) -> io::Result<()> {
    show_file(rt, "delay_or_action.pnp", 6, 4, 3)
}

// Two traps, each after two letters: 1 and 3 lead to (1, 0) and (61, 0), lost 1; 2 and 0 lead to
// (0, 1) and (0, 61), lost 2, and from there 0 to (0, 62) and 1 to (1, 62).
// Trapped, 7 states, lost 1, trace 1 3: states 0 1 256 61 15616 15872 15873, lost 0 0 0 1 2 1 1.
// The first letter decides, not the last.
fn two_traps(rt: &impl Runtime) -> io::Result<()> {
    let name = "two_traps.pnp";
    // Buffer 1 3 7 7, then 1 3.
    show_file(rt, name, 8, 8, 4)?;
    show_file(rt, name, 7, 10, 2)?;
    // Place for one letter: 21, scratch as above, the buffer unchanged.
    show_file(rt, name, 7, 7, 1)
}

// Signals `a b c`, two rows that begin together: letter 5, `a` and `c`, starts both triggers, and
// 6, `b` and `c`, realises them, as 7 does; one row then wants `a` and the other `!a`.
// Trapped, 3 states, lost 1, trace 5 6: states 0, 1 + 256 and 15677, lost 0 0 1.
fn three_signals(rt: &impl Runtime) -> io::Result<()> {
    show_file(rt, "three_signals.pnp", 4, 4, 3)
}

// Row 2 is in its trigger from the first tick on, and aborts and starts again at each. Row 1 starts
// its own while `a` holds, and again where it aborts: (0, 1), (1, 1), (2, 1). There it is realised
// without `c`: (61, 1), and each letter leads on to (62, 1), where none survives.
// Trapped, 6 states, lost 2, trace 1 1 0: states 0 256 257 258 317 318, lost 0 0 0 0 2 1. Three
// entries lead to (1, 1): the start and (0, 1) by the letters 1 and 3, and (2, 1) by 3. The latest
// lower predecessor would give 0 1 1 0, and the largest letters 3 3 1. No letter realises row 2:
// never 2.
fn which_predecessor(rt: &impl Runtime) -> io::Result<()> {
    let name = "which_predecessor.pnp";
    show_file(rt, name, 8, 7, 4)?;
    // The same where nothing is to spare.
    show_file(rt, name, 6, 6, 3)?;
    // Place for two letters: 21, scratch as above, the buffer unchanged.
    show_file(rt, name, 7, 6, 2)?;
    // Room 5: 20.
    show_file(rt, name, 6, 5, 3)
}

// Eight rows: letter 1 leads to the codes 61 1 0 121 1 61 61 121. From there 2 alone survives: six
// rows are back, and the last two run on to 127 and 128, by 0 or 2. Then 2 leads back to the start.
// Sound, 9 states. The state numbers are the codes times the powers of 256, the first row's with 1,
// the last row's with 256 to the 7th.
// Letter 1 realises five rows. Triggers 2 and 5 have no end, trigger 3 no start: never 2 3 5.
fn eight_rows(rt: &impl Runtime) -> io::Result<()> {
    show_file(rt, "eight_rows.pnp", 9, 10, 1)
}

fn with_row(table: Table, row: Row) -> Table {
    let mut changed = table;
    changed.rows[0] = row;
    changed
}

// Table values that no accepted file has: 17, and every list unchanged, the index too.
fn no_tables(rt: &impl Runtime) -> io::Result<()> {
    // The reader refuses a file without rows, and its table is then empty.
    show_file(rt, "no_rows.pnp", 4, 3, 2)?;
    let p = table_in(rt, "p.pnp")?;
    let mut none = p;
    none.count = 0;
    show(rt, "count 0", none, 3, 4, 2)?;
    let mut slow = p.rows[0];
    slow.lmax = 61;
    let long = with_row(p, slow);
    let name = "bound 61";
    show(rt, name, long, 2, 2, 2)?;
    // 17 comes before 20.
    show(rt, name, long, 0, 3, 0)?;
    let mut far = p.rows[0];
    far.sets[5] = 16;
    show(rt, "letter 4 in a set", with_row(p, far), 3, 3, 1)
}

// As many states as there is room for, with a trap and without, a trace of 4,080 letters, and eight
// rows that `a` would realise, and break, in each state. Without `a` their triggers start again
// every 16, 15, 17, 8, 5, 3, 4 and 2 ticks, all at once every 4,080: 4,081 states with the start.
fn large(rt: &impl Runtime) -> io::Result<()> {
    for name in ["full4096.pnp", "free6.pnp", "trace4080.pnp", "never8.pnp"] {
        show_long(rt, name, table_in(rt, name)?)?;
    }
    Ok(())
}

// How many places of what a run leaves are changed, one at a time, and how many of these changes
// are noticed where two runs are compared.
fn changes(rt: &impl Runtime) -> io::Result<()> {
    let ran = run(table_in(rt, "report.pnp")?, 4, 4, 0, 3);
    let held = ran.held;
    let mut changed: u64 = 0;
    let mut noticed: u64 = 0;
    for i in 0..ALL {
        if (i % 97 == 0) | (ANSWER <= i) {
            let mut other = held;
            other[i] = other[i] ^ 1;
            changed = changed.wrapping_add(1);
            if !alike(&held, &other) {
                noticed = noticed.wrapping_add(1);
            }
        }
    }
    println!(rt; "places changed {changed}, noticed {noticed}")
}

fn main(rt: HostRuntime) -> io::Result<()> {
    row_p(&rt)?;
    row_q(&rt)?;
    row_s(&rt)?;
    report(&rt)?;
    no_start(&rt)?;
    at_once(&rt)?;
    fork(&rt)?;
    delay_or_action(&rt)?;
    two_traps(&rt)?;
    three_signals(&rt)?;
    which_predecessor(&rt)?;
    eight_rows(&rt)?;
    show_never(&rt)?;
    show_pressed(&rt)?;
    no_tables(&rt)?;
    large(&rt)?;
    changes(&rt)
}
