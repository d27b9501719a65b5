// Some rows of a table, as a table of their own. specs/Subtable.antt says what is right.
#![tactic(auto)]

ghost use Rattle.std.specs.Prelude.{◌≡◌};
ghost use Rattle.subsets.specs.Subtable.{subtable};

use table::{MOST_ROWS, Row, Table};

// The table of those rows that are in a set, in file order, with all signals: bit i of the set is
// row i + 1. No bit from the row count on counts. Number 17 lets it by if it lets by the table and
// one of its rows is in the set.
pub fn subtable(table: Table, set: u64) -> Table
    ensures { result ≡ subtable set table }
{
    let used = usize::from(table.count).min(MOST_ROWS);
    let mut rows = [Row::default(); MOST_ROWS];
    let mut n: usize = 0;
    for (i, row) in table.rows[..used].iter().enumerate() {
        if letters::contains(set, i as u8) {
            rows[n] = *row;
            n += 1;
        }
    }
    Table {
        count: n as u8,
        rows,
        ..table
    }
}
