// Tables with longer names.
use random::numbers::{byte_below, mixed};
use std::array;
use table::{MOST_SIGNALS, Name, Table};

// A letter a-z.
fn letter(n: u8) -> u8 {
    b'a' + n % 26
}

// A name of 1 to 8 letters, the first of which tells the signals apart.
fn any_name(seed: u64, signal: u8) -> Name {
    let own = mixed(seed);
    let length = usize::from(byte_below(own, 8));
    Name {
        chars: array::from_fn(|k| {
            if k == 0 {
                letter(signal)
            } else if k <= length {
                letter(byte_below(own ^ (k as u64), 26))
            } else {
                0
            }
        }),
    }
}

// The names of so many signals.
fn any_names(seed: u64, signals: u8) -> [Name; MOST_SIGNALS] {
    let own = mixed(seed);
    let mut names = [Name::default(); MOST_SIGNALS];
    for (name, signal) in names.iter_mut().zip(0..signals) {
        *name = any_name(own ^ u64::from(signal), signal);
    }
    names
}

// The table with other names.
pub fn renamed(seed: u64, table: Table) -> Table {
    Table {
        names: any_names(seed, table.signals),
        ..table
    }
}
