// A table of eight different rows, each in another phase, and what a tick makes of all of them; and
// the state that is kept under each refusal.
use crate::rows::{A, ALWAYS, C, NEVER, one_row, row_p, row_q, row_s};
use crate::ways::{Tally, print_spoilt};
use crate::{print_case, print_cases};
use lending::MOST_LENT;
use pass::Watch;
use std::io;
use table::{MOST_ROWS, MOST_TICKS, Row, Table};

const NOT_A: u64 = 5;

// `a,a,c,0,60,0,60,c,a,a,0,60`
fn row_long() -> Row {
    Row {
        sets: [A, A, C, C, A, A],
        tmax: MOST_TICKS,
        lmax: MOST_TICKS,
        amax: MOST_TICKS,
        ..Row::default()
    }
}

// `c,c,a,1,2,2,60,a&c,1,0,0,1`
fn row_late() -> Row {
    Row {
        sets: [C, C, A, 8, ALWAYS, NEVER],
        tmin: 1,
        tmax: 2,
        lmin: 2,
        lmax: MOST_TICKS,
        amax: 1,
        ..Row::default()
    }
}

// `!a,1,c,0,1,0,1,1,!a,c,60,60`
fn row_action() -> Row {
    Row {
        sets: [NOT_A, ALWAYS, C, ALWAYS, NOT_A, C],
        tmax: 1,
        lmax: 1,
        amin: MOST_TICKS,
        amax: MOST_TICKS,
        ..Row::default()
    }
}

// `1,1,1,0,0,0,0,1,1,1,0,0`
fn row_always() -> Row {
    Row {
        sets: [ALWAYS; 6],
        ..Row::default()
    }
}

// `!a,!a,0,0,60,0,0,0,0,0,0,0`
fn row_hold() -> Row {
    Row {
        sets: [NOT_A, NOT_A, NEVER, NEVER, NEVER, NEVER],
        tmax: MOST_TICKS,
        ..Row::default()
    }
}

fn eight_rows() -> Table {
    let rows = [
        row_p(),
        row_q(),
        row_s(),
        row_long(),
        row_late(),
        row_action(),
        row_always(),
        row_hold(),
    ];
    Table {
        count: 8,
        rows,
        ..one_row(row_p())
    }
}

// Delay 1, trigger 2, action 1, trigger 59, delay 60, action 60, broken, waiting.
fn eight_phases() -> Watch {
    let codes = [61, 2, 121, 59, 120, 180, 255, 0];
    Watch {
        slots: codes.map(phases::phase_of),
    }
}

fn print_before(rt: &impl Print, watch: Watch) -> io::Result<()> {
    print!(rt; "before: ")?;
    crate::show::print_codes(rt, watch)?;
    println!(rt)
}

// 17, 18 and 19: the state is kept.
fn print_kept(rt: &impl Print, tally: &mut Tally, table: Table, watch: Watch) -> io::Result<()> {
    let mut long = table;
    long.rows[MOST_ROWS - 1].tmax = MOST_TICKS + 1;
    print_before(rt, watch)?;
    print_case(rt, tally, "eighth row's bound 61", long, watch, &[1])?;
    let mut far = watch;
    far.slots[2] = phases::phase_of(123);
    print_before(rt, far)?;
    print_case(rt, tally, "third row's code 123", table, far, &[1])?;
    print_before(rt, watch)?;
    print_case(rt, tally, "eight rows, letter 4", table, watch, &[1, 4])
}

pub(crate) fn print_eight(rt: &impl Print, tally: &mut Tally) -> io::Result<()> {
    let table = eight_rows();
    let watch = eight_phases();
    let start = watcher::start();
    print_before(rt, watch)?;
    let traces: [&[u8]; 8] = [
        &[1],
        &[2],
        &[3],
        &[1, 0],
        &[1, 1],
        &[2, 0],
        &[3, 0],
        &[3, 1, 2, 1],
    ];
    print_cases(rt, tally, "eight rows", table, watch, &traces)?;
    let traces: [&[u8]; 5] = [&[1], &[2], &[3], &[1, 0], &[2, 0, 1, 3]];
    print_cases(
        rt,
        tally,
        "eight rows from the start",
        table,
        start,
        &traces,
    )?;
    print_kept(rt, tally, table, watch)?;
    let mut nine = table;
    nine.count = MOST_LENT as u8;
    print_case(rt, tally, "nine rows", nine, start, &[1])?;
    nine.count = 255;
    print_case(rt, tally, "255 rows", nine, start, &[1])?;
    print_spoilt(rt, table, watch, &[1, 2])
}
