// What is counted, a place for each line that a program prints; and what differs in a table, as a
// set of bits.
ghost use Rattle.std.specs.Prelude.{◌≡◌, Err};

use std::io;
use table::Refusal;

// No program prints more lines.
pub const LINES: usize = 32;

// Counts stop here.
const MOST: usize = 1_000_000_000;

// The numbers of a program's lines, in the order in which they are printed.
#[derive(Clone, Copy, Debug, Default, PartialEq, Eq)]
pub struct Tally {
    pub lines: [usize; LINES],
}

impl Tally {
    // So many more in a line.
    pub fn more<L: Into<usize>>(&mut self, line: L, many: usize) {
        if let Some(n) = self.lines.get_mut(line.into()) {
            *n = n.saturating_add(many).min(MOST);
        }
    }

    // One more in a line, if it counts.
    pub fn one_more_if<L: Into<usize>>(&mut self, line: L, yes: bool) {
        self.more(line, usize::from(yes));
    }

    // The larger of a line's number and another.
    pub fn largest<L: Into<usize>>(&mut self, line: L, n: usize) {
        if let Some(most) = self.lines.get_mut(line.into()) {
            *most = (*most).max(n);
        }
    }

    // Prints the lines, each after its words.
    pub fn print(&self, rt: &impl Print, words: &[&str]) -> io::Result<()> {
        for (word, n) in words.iter().zip(self.lines.iter()) {
            println!(rt; "{word}{n}")?;
        }
        Ok(())
    }
}

// The bit of word n, unless the two are the same.
pub fn unless(same: bool, n: u32) -> u32 {
    if same { 0 } else { 1u32.wrapping_shl(n) }
}

// What a call gives that is refused with a number and no line.
pub fn refused<T>(number: u8) -> Result<T, Refusal>
    ensures { result ≡ Err (record { number = number; line = 0 }) }
{
    Err(Refusal { number, line: 0 })
}

// What differs, but for a place that was changed to see that it is noticed: then word 0, if it is
// not.
pub fn reported(changed: bool, differs: u32) -> u32 {
    if changed {
        unless(differs != 0, 0)
    } else {
        differs
    }
}

// Prints the words for what differs in a table, and the table's number, unless nothing differs.
pub fn print_difference(
    rt: &impl Print,
    words: &[&str],
    bits: u32,
    number: usize,
) -> io::Result<()> {
    if bits == 0 {
        return Ok(());
    }
    let mut left = bits;
    for word in words {
        if left % 2 == 1 {
            print!(rt; "{word}")?;
        }
        left /= 2;
    }
    println!(rt; "differ in table {number}")
}
