// The first boards of document 01 that are about single rows, run through the watcher: rows P, Q
// and S with the signals `a c`, each with the letters read and the code that its phase then has.
// Then rows in which much happens at one letter, triggers that are pressed again as they abort, one
// small input for each number that a watcher call can give, and tables of eight rows. Each case
// goes three ways (`ways`), and what happened to each row is printed: at each tick, and as counts
// in the order started, realised, aborted, acting, completed, broken.
#![tactic(auto)]

mod eight;
mod rows;
mod runs;
mod show;
mod ways;

use pass::Watch;
use rows::{one_row, one_signal, row_brief, row_done, row_lapse, row_p, row_q, row_s, row_stand};
use std::io;
use step::Phase;
use table::Table;
use watcher::Played;
use ways::Tally;

// `code 61`, and before it `refused 19 line 0, ` if the call is refused: the state is kept then.
fn print_answer(rt: &impl Print, played: Played) -> io::Result<()> {
    show::print_outcome(rt, played.outcome)?;
    let code = phases::code(played.watch.slots[0]);
    println!(rt; "code {code}")
}

fn print_letters(rt: &impl Print, trace: &[u8]) -> io::Result<()> {
    for letter in trace {
        print!(rt; " {letter}")?;
    }
    Ok(())
}

// Plays a trace.
fn print_play(
    rt: &impl Print,
    tally: &mut Tally,
    table: Table,
    watch: Watch,
    trace: &[u8],
) -> io::Result<()> {
    print_letters(rt, trace)?;
    print!(rt; ": ")?;
    print_answer(rt, watcher::play(table, watch, trace))?;
    ways::print_ways(rt, tally, table, watch, trace)
}

pub(crate) fn print_case(
    rt: &impl Print,
    tally: &mut Tally,
    name: &str,
    table: Table,
    watch: Watch,
    trace: &[u8],
) -> io::Result<()> {
    print!(rt; "{name}")?;
    print_play(rt, tally, table, watch, trace)
}

// Plays traces from a state.
pub(crate) fn print_cases(
    rt: &impl Print,
    tally: &mut Tally,
    name: &str,
    table: Table,
    watch: Watch,
    traces: &[&[u8]],
) -> io::Result<()> {
    for trace in traces {
        print_case(rt, tally, name, table, watch, trace)?;
    }
    Ok(())
}

fn with_code(code: u8) -> Watch {
    let mut watch = watcher::start();
    watch.slots[0] = phases::phase_of(code);
    watch
}

// A case whose name is the code at which it begins.
fn print_code(
    rt: &impl Print,
    tally: &mut Tally,
    table: Table,
    code: u8,
    trace: &[u8],
) -> io::Result<()> {
    print!(rt; "code {code}")?;
    print_play(rt, tally, table, with_code(code), trace)
}

// 17: a bound that no file has comes before a state and a letter that do not fit either.
fn rules_refused(rt: &impl Print, tally: &mut Tally) -> io::Result<()> {
    let start = watcher::start();
    let p = one_row(row_p());
    let mut long = row_p();
    long.lmax = 61;
    print_case(rt, tally, "bound 61", one_row(long), with_code(200), &[4])?;
    let mut none = p;
    none.count = 0;
    print_case(rt, tally, "no rows", none, start, &[1])?;
    let mut far = row_p();
    far.sets[5] = 16;
    print_case(rt, tally, "letter 4 in a set", one_row(far), start, &[1])
}

// 18 comes before 19; code 255 is accepted.
fn states_refused(rt: &impl Print, tally: &mut Tally) -> io::Result<()> {
    let start = watcher::start();
    let p = one_row(row_p());
    print_code(rt, tally, p, 200, &[4])?;
    print_code(rt, tally, p, 62, &[1])?;
    print_code(rt, tally, p, 61, &[2])?;
    print_code(rt, tally, p, 255, &[2])?;
    let mut unused = start;
    unused.slots[1] = Phase::Broken;
    print_case(rt, tally, "unused row", p, unused, &[1])
}

fn letters_refused(rt: &impl Print, tally: &mut Tally) -> io::Result<()> {
    let start = watcher::start();
    let p = one_row(row_p());
    let fourth = "letter 4";
    print_case(rt, tally, fourth, p, start, &[1, 2, 4])?;
    print_case(rt, tally, fourth, p, with_code(61), &[2, 4])?;
    let one = "one signal";
    print_case(rt, tally, one, one_signal(), start, &[1, 0])?;
    print_case(rt, tally, one, one_signal(), start, &[1, 2])
}

// Number 17 of a table value looks at the names; of rows that are lent it knows the number of
// signals alone, so here the ways differ.
fn names_refused(rt: &impl Print, tally: &mut Tally) -> io::Result<()> {
    let mut named = one_row(row_p());
    named.names[5].chars[0] = b'a';
    print_case(rt, tally, "unused name", named, watcher::start(), &[1])
}

// The first boards.
fn boards(rt: &impl Print, tally: &mut Tally) -> io::Result<()> {
    let start = watcher::start();
    let p = one_row(row_p());
    let q = one_row(row_q());
    let s = one_row(row_s());
    print_cases(
        rt,
        tally,
        "P",
        p,
        start,
        &[&[], &[1], &[1, 2], &[1, 0], &[1, 0, 1], &[1, 3]],
    )?;
    print_cases(
        rt,
        tally,
        "Q",
        q,
        start,
        &[&[1, 1, 3], &[1, 3], &[1, 1, 1, 1], &[1, 1, 1, 3], &[1, 0]],
    )?;
    print_cases(rt, tally, "S", s, start, &[&[3], &[1], &[3, 3], &[3, 2, 2]])
}

// A trigger that starts and is over at one letter.
fn at_once(rt: &impl Print, tally: &mut Tally) -> io::Result<()> {
    let start = watcher::start();
    let lapse = one_row(row_lapse());
    let stand = one_row(row_stand());
    print_case(rt, tally, "aborted as it starts", lapse, start, &[1])?;
    print_cases(rt, tally, "every letter", stand, start, &[&[1], &[1, 0]])
}

// Triggers that began at an earlier tick and abort where their start holds (document 02, ask 4).
fn pressed(rt: &impl Print, tally: &mut Tally) -> io::Result<()> {
    let start = watcher::start();
    let q = one_row(row_q());
    let brief = one_row(row_brief());
    let done = one_row(row_done());
    // Phases 1 2 3, then 1, aborted and started, 2, and 255, realised and broken. After 1 and the
    // letter 2, at which the start does not hold, 0, aborted.
    let again = "Q pressed again";
    print_cases(
        rt,
        tally,
        again,
        q,
        start,
        &[
            &[1],
            &[1, 1],
            &[1, 1, 1],
            &[1, 1, 1, 1],
            &[1, 1, 1, 1, 1],
            &[1, 1, 1, 1, 1, 3],
            &[1, 2],
        ],
    )?;
    // Phases 1, then 0, aborted and started: the second check aborts as well. Then 0, started and
    // aborted: a trigger that aborts in the tick it began starts no other.
    print_cases(
        rt,
        tally,
        "aborted twice",
        brief,
        start,
        &[&[3], &[3, 1], &[3, 1, 1]],
    )?;
    // Phases 1, then 0, realised, acting, completed: what is no abort starts no other.
    print_cases(
        rt,
        tally,
        "completed as it is realised",
        done,
        start,
        &[&[1], &[1, 3]],
    )
}

fn main(rt: HostRuntime) -> io::Result<()> {
    let mut tally = Tally::default();
    boards(&rt, &mut tally)?;
    at_once(&rt, &mut tally)?;
    pressed(&rt, &mut tally)?;
    rules_refused(&rt, &mut tally)?;
    states_refused(&rt, &mut tally)?;
    letters_refused(&rt, &mut tally)?;
    names_refused(&rt, &mut tally)?;
    eight::print_eight(&rt, &mut tally)?;
    ways::print_tally(&rt, tally)
}
