// The same call with other indexes: with `room` - 1, `room`, `room` + 1 and `room` + 2 places, and
// with many. Each has to give the answer and to leave the lists that an empty one does.
ghost use Rattle.std.specs.Prelude.{◌≤◌};

use crate::run::{MANY, Ran, alike, run};
use std::io;
use table::Table;

const OTHERS: usize = 5;

// "The room is then the shorter of two lists, at most 4,096 as before."
fn room_of(a: usize, d: usize) -> usize
    ensures { result ≤ 4096 }
{
    let shorter = if a < d { a } else { d };
    if shorter < 4096 { shorter } else { 4096 }
}

// Their lengths, for a room.
fn lengths_of(room: usize) -> [usize; OTHERS]
    requires { room ≤ 4096 }
{
    let less = if 0 < room { room - 1 } else { 0 };
    [less, room, room + 1, room + 2, MANY]
}

// Prints how many of the six runs are alike, how many places their indexes have that hold 0, and
// how many that still hold 7.
pub fn show_indexes(
    rt: &impl Print,
    first: &Ran,
    table: Table,
    a: usize,
    d: usize,
    t: usize,
) -> io::Result<()> {
    print!(rt; "\n  indexes 0")?;
    let mut same: u64 = 1;
    let mut zeros = first.zeros;
    let mut sevens = first.sevens;
    for length in lengths_of(room_of(a, d)) {
        print!(rt; " {length}")?;
        let other = run(table, a, d, length, t);
        if alike(&first.held, &other.held) {
            same = same.wrapping_add(1);
        }
        zeros = zeros.wrapping_add(other.zeros);
        sevens = sevens.wrapping_add(other.sevens);
    }
    println!(rt; ": alike {same}, zeros {zeros}, sevens {sevens}")
}
