// How many tables were written, and how many refused by which number.
use random::tally::{Tally, print_difference};
use std::io;
use table::Refusal;

// The lines, in the order in which they are printed.
#[derive(Clone, Copy, Debug, PartialEq, Eq)]
enum Line {
    Tables,
    Agreed,
    Changed,
    Noticed,
    Written,
    JustAsLong,
    Refused17,
    Refused23,
    Refused24,
    Longest,
}

impl From<Line> for usize {
    fn from(line: Line) -> usize {
        line as usize
    }
}

// The words of the lines.
pub const WORDS: [&str; 10] = [
    "tables to be written ",
    "agreed ",
    "  with a byte changed after the call ",
    "  of these noticed ",
    "written ",
    "  in a buffer just as long as the file ",
    "refused 17: ",
    "refused 23: ",
    "refused 24: ",
    "longest file ",
];

// Counts a byte that was changed, if it was, and whether the comparison noticed it.
pub fn count_strike(tally: &mut Tally, changed: bool, noticed: bool) {
    tally.one_more_if(Line::Changed, changed);
    tally.one_more_if(Line::Noticed, changed & noticed);
}

// Counts a table for which so many bytes were lent, and of which `differs` says what differs, and
// prints that.
pub fn count_table(
    rt: &impl Print,
    tally: &mut Tally,
    right: Result<&[u8], Refusal>,
    lent: usize,
    differs: u32,
) -> io::Result<()> {
    let words = ["a changed byte ", "refusal ", "length ", "bytes "];
    print_difference(rt, &words, differs, tally.lines[0])?;
    tally.one_more_if(Line::Tables, true);
    tally.one_more_if(Line::Agreed, differs == 0);
    match right {
        Ok(file) => {
            tally.one_more_if(Line::Written, true);
            tally.one_more_if(Line::JustAsLong, file.len() == lent);
            tally.largest(Line::Longest, file.len());
        }
        Err(Refusal { number, .. }) => {
            tally.one_more_if(Line::Refused17, number == 17);
            tally.one_more_if(Line::Refused23, number == 23);
            tally.one_more_if(Line::Refused24, number == 24);
        }
    }
    Ok(())
}
