// Reading one row's line: six conditions and six bounds. specs/Row.antt says what is right, and
// which of 10 to 15 another line gets.
#![tactic(auto)]

ghost use Rattle.std.specs.Prelude.{◌≡◌, length, take, drop, ◌≤◌};
ghost use Rattle.letters.specs.Letter.{width};
ghost use Rattle.text.specs.Lines.{comma, count};
ghost use Rattle.text.specs.Inner.Cut.{front};
ghost use Rattle.rows.specs.Inner.Row.{row_from, field_of, line_fields, all_values, BoundsFit};
ghost use Rattle.rows.specs.Inner.Row.{judged_row, rule_shaped, row_answer};

use table::{CONDITIONS, FIELDS, Row, Signals};
use text::Version;

pub const BOUNDS: usize = 6;

// What a row's line holds: its six sets and its six bounds, Tmin to Amax.
#[derive(Clone, Copy, Debug, Default, PartialEq, Eq)]
pub struct RowRead {
    pub sets: [u64; CONDITIONS],
    pub bounds: [u8; BOUNDS],
}

// A row of its six sets and its six bounds.
pub fn row_of(sets: [u64; CONDITIONS], bounds: [u8; BOUNDS]) -> Row
    ensures { result ≡ row_from sets bounds }
{
    let [tmin, tmax, lmin, lmax, amin, amax] = bounds;
    Row {
        sets,
        tmin,
        tmax,
        lmin,
        lmax,
        amin,
        amax,
    }
}

// Field k, which the rest of the line begins with: it ends at the next comma.
#[tactic(auto, using(text::proofs::Parts::part_front), unfolding(crate::specs::Inner::Row::field_of))]
fn read_field(rest: &[u8], end: usize, k: usize, signals: Signals) -> Result<u64, u8>
    requires { end ≡ length (front comma rest.now) }
    ensures { result ≡ field_of (take signals.count signals.names) (width signals.count) k
        (front comma rest.now) }
{
    if table::rows::is_bound(k) {
        text::read_bound(&rest[..end]).map(u64::from).ok_or(14)
    } else {
        conditions::judge_condition(&rest[..end], signals)
    }
}

// What the fields after `rule ` hold, each read on from its comma as the rest of the line; or the
// first number, from the left.
fn read_values(line: &[u8], signals: Signals) -> Result<[u64; FIELDS], u8>
    requires { (5 ≤ length line.now) × (count comma (drop 5 line.now) ≡ 11) }
    ensures { result ≡ all_values
        (line_fields (take signals.count signals.names) (width signals.count) line.now) }
{
    let mut values = [0u64; FIELDS];
    let mut at = 5;
    for (k, value) in values.iter_mut().enumerate() {
        let rest = &line[at..];
        let end = text::find(rest, b',');
        *value = read_field(rest, end, k, signals)?;
        at += end + 1;
    }
    Ok(values)
}

// The sets and bounds of the values; or 15, if a least is above its most.
fn judge_row(v: [u64; FIELDS]) -> Result<RowRead, u8>
    requires { BoundsFit v }
    ensures { result ≡ judged_row v }
{
    let [
        tse,
        tc,
        tee,
        tmin,
        tmax,
        lmin,
        lmax,
        ase,
        ac,
        aee,
        amin,
        amax,
    ] = v;
    if (tmin <= tmax) & (lmin <= lmax) & (amin <= amax) {
        Ok(RowRead {
            sets: [tse, tc, tee, ase, ac, aee],
            bounds: [
                tmin as u8, tmax as u8, lmin as u8, lmax as u8, amin as u8, amax as u8,
            ],
        })
    } else {
        Err(15)
    }
}

// Whether a line begins with `rule ` and has eleven commas.
fn is_rule(line: &[u8]) -> bool
    ensures { result ≡ rule_shaped line.now }
{
    line.starts_with(b"rule ") && text::count_of(line, b',') == 11
}

// A row's line in a file of a version; or 10, then 11 to 14 of the first field that has one, then
// 15. No version has other rows yet.
pub fn read_row(line: &[u8], signals: Signals, version: Version) -> Result<RowRead, u8>
    ensures { result ≡ row_answer (take signals.count signals.names) (width signals.count)
        version line.now }
{
    if !is_rule(line) {
        return Err(10);
    }
    judge_row(read_values(line, signals)?)
}
