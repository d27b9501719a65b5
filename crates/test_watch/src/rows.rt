// The rows of the cases and tables of them, with the signals `a c`.
use table::{Row, Table};

// The conditions of the rows, as sets of the four letters: `a` holds at 1 and 3, `c` at 2 and 3.
pub(crate) const A: u64 = 10;

pub(crate) const C: u64 = 12;

pub(crate) const NEVER: u64 = 0;

pub(crate) const ALWAYS: u64 = 15;

pub(crate) fn row_p() -> Row {
    Row {
        sets: [A, A, A, C, C, C],
        lmin: 1,
        lmax: 1,
        ..Row::default()
    }
}

pub(crate) fn row_q() -> Row {
    Row {
        sets: [A, A, C, NEVER, NEVER, NEVER],
        tmin: 2,
        tmax: 3,
        ..Row::default()
    }
}

pub(crate) fn row_s() -> Row {
    Row {
        sets: [A, A, A, ALWAYS, C, A],
        amin: 1,
        amax: 2,
        ..Row::default()
    }
}

// `a,0,0,0,0,0,0,a,a,a,0,0`: a trigger that is aborted as it starts.
pub(crate) fn row_lapse() -> Row {
    Row {
        sets: [A, NEVER, NEVER, A, A, A],
        ..Row::default()
    }
}

// `1,1,1,0,0,0,0,a,a,a,0,0`: whenever `a` fails the row breaks.
pub(crate) fn row_stand() -> Row {
    Row {
        sets: [ALWAYS, ALWAYS, ALWAYS, A, A, A],
        ..Row::default()
    }
}

// `a,c,0,0,3,0,0,0,0,0,0,0`: a trigger that is aborted once `c` fails, and as it starts without it.
pub(crate) fn row_brief() -> Row {
    Row {
        sets: [A, C, NEVER, NEVER, NEVER, NEVER],
        tmax: 3,
        ..Row::default()
    }
}

// `a,a,c,1,3,0,0,1,1,1,0,0`: the action is completed as the trigger is realised.
pub(crate) fn row_done() -> Row {
    Row {
        sets: [A, A, C, ALWAYS, ALWAYS, ALWAYS],
        tmin: 1,
        tmax: 3,
        ..Row::default()
    }
}

// A table with one row and the signals `a c`.
pub(crate) fn one_row(row: Row) -> Table {
    let mut table = Table {
        signals: 2,
        count: 1,
        ..Table::default()
    };
    table.names[0].chars[0] = b'a';
    table.names[1].chars[0] = b'c';
    table.rows[0] = row;
    table
}

// One signal: the row `a,a,a,0,0,1,1,!a,!a,!a,0,0`.
pub(crate) fn one_signal() -> Table {
    let mut table = one_row(Row {
        sets: [2, 2, 2, 1, 1, 1],
        lmin: 1,
        lmax: 1,
        ..Row::default()
    });
    table.signals = 1;
    table.names[1].chars[0] = 0;
    table
}
