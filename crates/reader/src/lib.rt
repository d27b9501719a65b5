// The reader: any bytes in, exactly the tables of document 01 out. specs/Grammar.antt describes the
// accepted files, specs/Right.antt which number and line each other one gets. Crate `header` reads
// lines 1 and 2, crate `rows` each further line.
#![tactic(auto)]

ghost use Rattle.std.specs.Prelude.{◌≡◌, ◌+◌, min, length};
ghost use Rattle.text.specs.Inner.Cut.{lines};
ghost use Rattle.reader.specs.Reading.{empty_table};
ghost use Rattle.reader.specs.Inner.File.{reading, on_line, rows_answer, body_answer, read_answer};
ghost use Rattle.reader.specs.Inner.Gathering.{gathered};

use rows::RowRead;
use table::{CONDITIONS, MOST_BYTES, MOST_ROWS, Outcome, Refusal, Row, Signals, Table};
use text::{LF, Version};

// What a file is read as. The table of a refused file is empty: everything in it is 0.
#[derive(Clone, Copy, Debug, PartialEq, Eq)]
pub struct Reading {
    pub outcome: Outcome,
    pub table: Table,
}

// The table with nothing in it.
pub fn empty() -> Table
    ensures { result ≡ empty_table }
{
    Table::default()
}

// What a line is read as, its number with the line's.
fn on_line<T>(line: u8, read: Result<T, u8>) -> Result<T, Refusal>
    ensures { result ≡ on_line line read }
{
    read.map_err(|number| Refusal { number, line })
}

// The rows of a table, of their sets and bounds: all places, used or not.
fn rows_of(
    sets: [[u64; CONDITIONS]; MOST_ROWS],
    bounds: [[u8; rows::BOUNDS]; MOST_ROWS],
) -> [Row; MOST_ROWS]
    ensures { result ≡ gathered sets bounds }
{
    let mut rows = [Row::default(); MOST_ROWS];
    for (i, row) in rows.iter_mut().enumerate() {
        *row = rows::row_of(sets[i], bounds[i]);
    }
    rows
}

// The lines from line 3 on: a row each, in a file of a version.
#[tactic(auto, using(crate::proofs::Gathering::rows_none))]
fn read_rows(rest: &[u8], signals: Signals, version: Version) -> Result<Table, Refusal>
    ensures { reading result ≡ rows_answer signals.names signals.count version (lines rest.now) }
{
    if rest.is_empty() {
        return Err(Refusal {
            number: 16,
            line: 3,
        });
    }
    // Kept: document 01 (forms) has an array of row arrays while the reader gathers the sets.
    let mut sets = [[0u64; CONDITIONS]; MOST_ROWS];
    let mut bounds = [[0u8; rows::BOUNDS]; MOST_ROWS];
    let mut n: u8 = 0;
    let mut at: usize = 0;
    // Kept: by place and count; the library's split has one line more, the empty one past the last LF.
    while at < rest.len() {
        let i = usize::from(n);
        if MOST_ROWS <= i {
            return Err(Refusal {
                number: 9,
                line: n + 3,
            });
        }
        let end = at + text::find(&rest[at..], LF);
        let read = on_line(n + 3, rows::read_row(&rest[at..end], signals, version))?;
        let RowRead {
            sets: row_sets,
            bounds: row_bounds,
        } = read;
        sets[i] = row_sets;
        bounds[i] = row_bounds;
        n += 1;
        at = end + 1;
    }
    let names = signals.names;
    let rows = rows_of(sets, bounds);
    Ok(Table {
        signals: signals.count,
        names,
        count: n,
        rows,
    })
}

// The place past a line's end, or the end of all.
fn past(s: &[u8], end: usize) -> usize
    ensures { result ≡ min (end + 1) (length s.now) }
{
    end.saturating_add(1).min(s.len())
}

// The lines from line 2 on, in a file of a version.
#[tactic(auto, using(crate::proofs::Lines::body_none, text::proofs::Parts::part_front))]
fn read_body(rest: &[u8], version: Version) -> Result<Table, Refusal>
    ensures { reading result ≡ body_answer version (lines rest.now) }
{
    if rest.is_empty() {
        return Err(Refusal { number: 6, line: 2 });
    }
    let end = text::find(rest, LF);
    let signals = on_line(2, header::read_signals(&rest[..end]))?;
    read_rows(&rest[past(rest, end)..], signals, version)
}

// The lines of a file; or number and line.
#[tactic(auto, using(crate::proofs::Lines::read_empty, crate::proofs::Lines::read_long, crate::proofs::Lines::read_open, text::proofs::Parts::part_front))]
fn read_file(bytes: &[u8]) -> Result<Table, Refusal>
    ensures { reading result ≡ read_answer bytes.now }
{
    if bytes.is_empty() {
        return Err(Refusal { number: 1, line: 0 });
    }
    if MOST_BYTES < bytes.len() {
        return Err(Refusal { number: 2, line: 0 });
    }
    if bytes[bytes.len() - 1] != LF {
        return Err(Refusal { number: 3, line: 0 });
    }
    let end = text::find(bytes, LF);
    let version = on_line(1, header::read_version(&bytes[..end]))?;
    read_body(&bytes[past(bytes, end)..], version)
}

// The table that the bytes are; or number and line, and an empty table.
pub fn read(bytes: &[u8]) -> Reading
    ensures { result ≡ read_answer bytes.now }
{
    match read_file(bytes) {
        Ok(table) => Reading {
            outcome: Ok(()),
            table,
        },
        Err(refusal) => Reading {
            outcome: Err(refusal),
            table: empty(),
        },
    }
}
