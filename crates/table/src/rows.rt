// Rows that an accepted file can have. specs/Row.antt says what is right.
ghost use Rattle.std.specs.Prelude.{◌≡◌, take, drop};
ghost use Rattle.letters.specs.Letter.{set_valid};
ghost use Rattle.letters.specs.Lists.{every};
ghost use Rattle.table.specs.Row.{bounds_valid, row_valid, row_unused};
ghost use Rattle.table.specs.Inner.Fields.{bound_at};

use crate::{CONDITIONS, MOST_ROWS, MOST_TICKS, Row};

// Whether field k of a row's line, counted from 0, is a bound.
pub fn is_bound(k: usize) -> bool
    ensures { result ≡ bound_at k }
{
    matches!(k, 3..=6 | 10..)
}

// Whether a least and a most are those of a file.
pub fn bounds_valid(least: u8, most: u8) -> bool
    ensures { result ≡ bounds_valid least most }
{
    (least..=MOST_TICKS).contains(&most)
}

// Whether each set has only letters that so many signals have.
#[tactic(auto, unfolding(letters::specs::Lists::every))]
fn sets_valid(signals: u8, sets: [u64; CONDITIONS]) -> bool
    ensures { result ≡ every (set_valid signals) sets }
{
    sets.iter().all(|set| letters::set_valid(signals, *set))
}

// Whether a row is one that a file with so many signals can have.
#[tactic(auto, unfolding(crate::specs::Row::row_valid))]
pub fn row_valid(signals: u8, row: Row) -> bool
    ensures { result ≡ row_valid signals row }
{
    bounds_valid(row.tmin, row.tmax)
        & bounds_valid(row.lmin, row.lmax)
        & bounds_valid(row.amin, row.amax)
        & sets_valid(signals, row.sets)
}

// Whether everything in a row is 0.
#[tactic(auto, unfolding(letters::specs::Lists::every, crate::specs::Row::row_unused))]
pub fn row_unused(row: Row) -> bool
    ensures { result ≡ row_unused row }
{
    row == Row::default()
}

// Whether the first n rows are such as a file with so many signals can have.
#[tactic(auto, unfolding(letters::specs::Lists::every))]
pub fn used_valid(signals: u8, rows: [Row; MOST_ROWS], n: usize) -> bool
    ensures { result ≡ every (row_valid signals) (take n rows) }
{
    rows.iter().take(n).all(|row| row_valid(signals, *row))
}

// Whether the rows from place n on are 0.
#[tactic(auto, unfolding(letters::specs::Lists::every))]
pub fn rest_unused(rows: [Row; MOST_ROWS], n: usize) -> bool
    ensures { result ≡ every row_unused (drop n rows) }
{
    rows.iter().skip(n).all(|row| row_unused(*row))
}
