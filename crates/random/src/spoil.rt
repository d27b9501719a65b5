// Table values that number 17 turns down.
use crate::numbers::byte_below;
use crate::tables::letter_count;
use table::{Row, TEE, Table};

// A valid table with one fault: "a table value with a signal count, names, row count or bounds that
// no accepted file has, an unused place that is not 0, or a set with a letter from 2^s on". In 3
// the second name is the first again, or is not used; in 6 there is no signal if all letters are
// used; in 7 the eighth row is not 0, or if it is used its least is above its most.
pub fn spoil(seed: u64, table: Table) -> Table {
    let letters = letter_count(table.signals);
    let first = table.rows[0];
    let mut bad = table;
    match byte_below(seed, 8) {
        0 => bad.signals = 7,
        1 => bad.count = 0,
        2 => bad.names[0].chars[0] = b'A',
        3 => bad.names[1] = table.names[0],
        4 => bad.rows[0].tmax = 61,
        5 => {
            bad.rows[0] = Row {
                amin: 2,
                amax: 1,
                ..first
            }
        }
        6 => {
            if letters < 64 {
                bad.rows[0].sets[TEE] = 1 << letters;
            } else {
                bad.signals = 0;
            }
        }
        _ => {
            bad.rows[7] = Row {
                lmin: 1,
                lmax: 0,
                ..first
            }
        }
    }
    bad
}
