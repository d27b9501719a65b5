// How many tables had which answer, and which kinds of paths.
use crate::expected::{Expected, Values};
use crate::lent::Lengths;
use random::tally::{Tally, print_difference, unless};
use second::Solved;
use std::io;

// The lines, in the order in which they are printed.
#[derive(Clone, Copy, Debug, PartialEq, Eq)]
enum Line {
    Tables,
    Agreed,
    Changed,
    Noticed,
    Bare,
    Indexed,
    AllSound,
    SoundWithRows,
    AllTrapped,
    AtOnce,
    LongTrace,
    LargeLost,
    Refused17,
    Refused20,
    Refused21,
    LongestTrace,
    LargestLost,
    MostStates,
    AllFire,
    WithBreak,
    Walks,
    WalksAgreed,
    Closed,
    ClosedBack,
    Joined,
    FellBack,
    LongestFall,
    Again,
}

impl From<Line> for usize {
    fn from(line: Line) -> usize {
        line as usize
    }
}

// The words of the lines.
pub const WORDS: [&str; 28] = [
    "tables ",
    "agreed ",
    "  with a place changed after the search ",
    "  of these noticed ",
    "  with an empty index ",
    "  with an index longer than the room ",
    "sound ",
    "  with several rows and over 3 states ",
    "trapped ",
    "  with an empty trace ",
    "  with a trace over 3 letters ",
    "  with a lost number over 3 ",
    "refused 17: ",
    "refused 20: ",
    "refused 21: ",
    "longest trace ",
    "largest lost number ",
    "most states ",
    "verdicts without a row that never fires ",
    "rows that never fire, though a broken trace realises them ",
    "walks along paths ",
    "  with the same lost numbers ",
    "  with a path that closes on itself ",
    "  with one that closes before its end ",
    "  with a path into the living ",
    "  with a fall back through 5 doomed states or more ",
    "longest fall back ",
    "tables with a trigger that starts again as it aborts, and goes on ",
];

// A walk that falls back through so many doomed states in a row is counted.
const FALL: usize = 5;

// Counts a table whose place was changed, and whether the comparison noticed it; and an index that
// is empty, or has places for buckets behind those of the room.
pub fn count_lent(tally: &mut Tally, changed: bool, differs: u32, lengths: Lengths) {
    tally.one_more_if(Line::Bare, lengths.index == 0);
    tally.one_more_if(Line::Indexed, lengths.room() < lengths.index);
    tally.one_more_if(Line::Changed, changed);
    tally.one_more_if(Line::Noticed, changed & (differs != 0));
}

// Counts a walk along paths, and a trigger that starts again, where the entries were compared.
fn count_walk(tally: &mut Tally, solved: &Solved) {
    let kinds = solved.kinds;
    tally.one_more_if(Line::Walks, true);
    tally.one_more_if(Line::WalksAgreed, kinds.same);
    tally.one_more_if(Line::Closed, kinds.closed);
    tally.one_more_if(Line::ClosedBack, kinds.closed_back);
    tally.one_more_if(Line::Joined, kinds.joined);
    tally.one_more_if(Line::FellBack, FALL <= kinds.longest_fall);
    tally.largest(Line::LongestFall, kinds.longest_fall);
    tally.one_more_if(Line::Again, solved.again);
}

// Counts a refusal's number.
fn count_refusal(tally: &mut Tally, number: u8) {
    tally.one_more_if(Line::Refused17, number == 17);
    tally.one_more_if(Line::Refused20, number == 20);
    tally.one_more_if(Line::Refused21, number == 21);
}

// Counts a verdict's values, and the rows that never fire, though a broken trace realises them.
fn count_verdict(tally: &mut Tally, values: Values, rows: u8, with_break: u64) {
    let trapped = values.trap.is_some();
    let trap = values.length_and_lost();
    let lost = usize::from(trap.lost);
    tally.one_more_if(Line::AllSound, !trapped);
    let several = (1 < rows) & (3 < values.count);
    tally.one_more_if(Line::SoundWithRows, !trapped & several);
    tally.one_more_if(Line::AllTrapped, trapped);
    tally.one_more_if(Line::AtOnce, trapped & (trap.length == 0));
    tally.one_more_if(Line::LongTrace, 3 < trap.length);
    tally.one_more_if(Line::LargeLost, 3 < lost);
    tally.largest(Line::LongestTrace, trap.length);
    tally.largest(Line::LargestLost, lost);
    tally.largest(Line::MostStates, values.count);
    tally.one_more_if(Line::AllFire, values.never == 0);
    tally.more(Line::WithBreak, with_break.count_ones() as usize);
}

// Counts one table more, of which `differs` says what differs, and prints that.
pub fn count_table(
    rt: &impl Print,
    tally: &mut Tally,
    right: Expected,
    rows: u8,
    differs: u32,
    solved: &Solved,
) -> io::Result<()> {
    let back = solved.trap.is_none_or(|trap| trap.back);
    let second = unless(back, 11) | unless(solved.kinds.same, 12);
    let words = [
        "a changed place ",
        "refusal ",
        "verdict ",
        "trace length ",
        "lost number ",
        "count ",
        "rows that never fire ",
        "states ",
        "lost numbers ",
        "index ",
        "trace ",
        "the way back ",
        "the walk's lost numbers ",
    ];
    print_difference(rt, &words, differs | second, tally.lines[0])?;
    tally.one_more_if(Line::Tables, true);
    tally.one_more_if(Line::Agreed, differs == 0);
    match right.answer {
        Err(number) => count_refusal(tally, number),
        Ok(values) => count_verdict(tally, values, rows, solved.never.with_break),
    }
    if 0 < right.used {
        count_walk(tally, solved);
    }
    Ok(())
}
