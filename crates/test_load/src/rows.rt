// The tables of the cases, with the signals `a c`.
use table::{MOST_ROWS, Row, Table};

// The conditions of the rows, as sets of the four letters: `a` holds at 1 and 3, `c` at 2 and 3.
const A: u64 = 10;

const NOT_A: u64 = 5;

const C: u64 = 12;

const NEVER: u64 = 0;

const ALWAYS: u64 = 15;

// A row with these conditions, and bounds that are all 0.
fn at_once(sets: [u64; 6]) -> Row {
    Row {
        sets,
        ..Row::default()
    }
}

// The same, with a delay of one tick.
fn after_one(sets: [u64; 6]) -> Row {
    Row {
        lmin: 1,
        lmax: 1,
        ..at_once(sets)
    }
}

fn row_p() -> Row {
    after_one([A, A, A, C, C, C])
}

fn row_q() -> Row {
    Row {
        tmin: 2,
        tmax: 3,
        ..at_once([A, A, C, NEVER, NEVER, NEVER])
    }
}

fn row_s() -> Row {
    Row {
        amin: 1,
        amax: 2,
        ..at_once([A, A, A, ALWAYS, C, A])
    }
}

// A table of the first `count` rows.
fn table_of(rows: [Row; MOST_ROWS], count: u8) -> Table {
    let mut table = Table {
        signals: 2,
        count,
        rows,
        ..Table::default()
    };
    table.names[0].chars[0] = b'a';
    table.names[1].chars[0] = b'c';
    table
}

fn three_rows(first: Row, second: Row, third: Row) -> Table {
    let mut rows = [Row::default(); MOST_ROWS];
    rows[..3].copy_from_slice(&[first, second, third]);
    table_of(rows, 3)
}

pub(crate) fn first_boards() -> Table {
    three_rows(row_p(), row_q(), row_s())
}

// The rows of tables/broken-alone.pnp: one that breaks where `a` holds, one that is realised and
// completed at every tick, and one that is completed one tick after `a`.
pub(crate) fn broken_alone() -> Table {
    three_rows(
        at_once([A, A, A, NOT_A, NOT_A, NOT_A]),
        at_once([ALWAYS; 6]),
        after_one([A, A, A, ALWAYS, ALWAYS, ALWAYS]),
    )
}

// So many rows that are realised and completed at every tick. There are places for eight.
pub(crate) fn every_tick(count: u8) -> Table {
    table_of([at_once([ALWAYS; 6]); MOST_ROWS], count)
}
