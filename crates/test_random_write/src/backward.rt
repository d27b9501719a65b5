// The second writer, made from documents 01 and 02 alone. It puts the bytes of a file from the last
// to the first, into a list as long as the longest file, at whose end the file then stands.
ghost use Rattle.std.specs.Prelude.{◌≤◌};

use random::tables::letter_count;
use table::{AC, AEE, ASE, FIELDS, MOST_BYTES, MOST_SIGNALS, Row, TC, TEE, TSE, Table};

// The letter with all of six signals on: no name has a `!`.
const ALL_ON: u8 = 63;

// A field of a row's line.
#[derive(Clone, Copy, Debug, PartialEq, Eq)]
enum Field {
    Condition(u64),
    Bound(u8),
}

// "TSE, TC, TEE, Tmin, Tmax, Lmin, Lmax, ASE, AC, AEE, Amin, Amax".
fn fields_of(row: &Row) -> [Field; FIELDS] {
    [
        Field::Condition(row.sets[TSE]),
        Field::Condition(row.sets[TC]),
        Field::Condition(row.sets[TEE]),
        Field::Bound(row.tmin),
        Field::Bound(row.tmax),
        Field::Bound(row.lmin),
        Field::Bound(row.lmax),
        Field::Condition(row.sets[ASE]),
        Field::Condition(row.sets[AC]),
        Field::Condition(row.sets[AEE]),
        Field::Bound(row.amin),
        Field::Bound(row.amax),
    ]
}

// The end of a file: the last `count` of the bytes. Each function that puts some gives None if the
// file gets too long.
#[derive(Clone, Copy, Debug, PartialEq, Eq)]
pub struct Backward {
    count: usize,
    bytes: [u8; MOST_BYTES],
    ghost within: { count ≤ 4096 },
}

impl Backward {
    // The bytes that were put.
    pub fn as_slice(&self) -> &[u8] {
        &self.bytes[MOST_BYTES - self.count..]
    }

    // A byte in front of those that there are.
    fn put(&mut self, byte: u8) -> Option<()> {
        let room = MOST_BYTES - self.count;
        *self.bytes.get_mut(room.checked_sub(1)?)? = byte;
        self.count += 1;
        Some(())
    }

    fn put_if(&mut self, yes: bool, byte: u8) -> Option<()> {
        if yes { self.put(byte) } else { Some(()) }
    }

    // A name or a word, of which the unused places are 0.
    fn put_word(&mut self, chars: &[u8]) -> Option<()> {
        for byte in chars.iter().rev() {
            self.put_if(*byte != 0, *byte)?;
        }
        Some(())
    }

    // Every signal in file order, with a byte between them, and with `!` where it is off in a
    // letter.
    fn put_names(&mut self, table: &Table, letter: u8, between: u8) -> Option<()> {
        for signal in (0..MOST_SIGNALS).rev() {
            if signal < usize::from(table.signals) {
                self.put_word(&table.names[signal].chars)?;
                self.put_if((letter >> signal) % 2 == 0, b'!')?;
                self.put_if(0 < signal, between)?;
            }
        }
        Some(())
    }

    // "A condition that never holds is `0` and one that always holds is `1`. Otherwise it is one
    // term for each letter that satisfies it, smallest first, joined by `|`; a term joins every
    // signal in file order by `&`, with `!` where it is false."
    fn put_condition(&mut self, table: &Table, set: u64) -> Option<()> {
        if set == 0 {
            return self.put(b'0');
        }
        if set.count_ones() == u32::from(letter_count(table.signals)) {
            return self.put(b'1');
        }
        let behind = self.count;
        for letter in (0..64).rev() {
            if (set >> letter) % 2 == 1 {
                self.put_if(self.count != behind, b'|')?;
                self.put_names(table, letter, b'&')?;
            }
        }
        Some(())
    }

    // "A bound is 0 to 60 without a leading zero".
    fn put_bound(&mut self, bound: u8) -> Option<()> {
        self.put(b'0' + bound % 10)?;
        self.put_if(10 <= bound, b'0' + bound / 10)
    }

    // "`rule `, then twelve fields with eleven commas between them".
    fn put_row(&mut self, table: &Table, row: &Row) -> Option<()> {
        self.put(b'\n')?;
        for (k, field) in fields_of(row).iter().enumerate().rev() {
            match *field {
                Field::Condition(set) => self.put_condition(table, set)?,
                Field::Bound(bound) => self.put_bound(bound)?,
            }
            self.put_if(0 < k, b',')?;
        }
        self.put_word(b"rule ")
    }

    // "Line 2 is `signals`, then a space and a name for each signal".
    fn put_table(&mut self, table: &Table) -> Option<()> {
        for row in table.rows.iter().take(usize::from(table.count)).rev() {
            self.put_row(table, row)?;
        }
        self.put(b'\n')?;
        self.put_names(table, ALL_ON, b' ')?;
        self.put_word(b"PNP 0001\nsignals ")
    }
}

// The file of a table, if it is not too long.
pub fn put_file(table: &Table) -> Option<Backward> {
    let mut file = Backward {
        count: 0,
        bytes: [0; MOST_BYTES],
    };
    file.put_table(table)?;
    Some(file)
}
