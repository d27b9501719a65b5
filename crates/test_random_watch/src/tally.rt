// How many ticks of the watcher were compared, how often each event came up in them, and how often
// a trigger aborted and started again.
use random::rules::Happened;
use random::tally::{Tally, print_difference};
use std::io;

// The lines, in the order in which they are printed: tables, those of them in which all agreed;
// ticks, those of them that were refused; how often an event or a count was changed, and how often
// this was noticed; each event; the triggers that were on, aborted and started again, and those of
// them that went on, in their first tick.
#[derive(Clone, Copy, Debug, PartialEq, Eq)]
enum Line {
    Tables,
    Agreed,
    Ticks,
    Refused,
    Changed,
    Noticed,
    Started,
    Realised,
    Aborted,
    Acting,
    Completed,
    Broke,
    Again,
    GoingOn,
}

impl From<Line> for usize {
    fn from(line: Line) -> usize {
        line as usize
    }
}

// The words of the lines.
pub const WORDS: [&str; 14] = [
    "tables ",
    "agreed ",
    "ticks ",
    "  refused ",
    "  with an event or a count changed ",
    "  of these noticed ",
    "triggers started ",
    "triggers realised ",
    "triggers aborted ",
    "actions started ",
    "actions completed ",
    "rows broken ",
    "triggers started again as they abort ",
    "  of these going on ",
];

// Counts a tick.
pub fn count_tick(tally: &mut Tally, refused: bool) {
    tally.one_more_if(Line::Ticks, true);
    tally.one_more_if(Line::Refused, refused);
}

// Counts a place that was changed, if it was, and whether the comparison noticed it.
pub fn count_strike(tally: &mut Tally, struck: bool, noticed: bool) {
    tally.one_more_if(Line::Changed, struck);
    tally.one_more_if(Line::Noticed, struck & noticed);
}

// Counts a row's events, and a trigger that started again. The codes are those before and after the
// tick.
pub fn count_row(tally: &mut Tally, before: u8, happened: Happened, after: u8) {
    tally.one_more_if(Line::Started, happened.started);
    tally.one_more_if(Line::Realised, happened.realised);
    tally.one_more_if(Line::Aborted, happened.aborted);
    tally.one_more_if(Line::Acting, happened.acting);
    tally.one_more_if(Line::Completed, happened.completed);
    tally.one_more_if(Line::Broke, happened.broke);
    let again = matches!(before, 1..=60) & happened.aborted & happened.started;
    tally.one_more_if(Line::Again, again);
    tally.one_more_if(Line::GoingOn, again & (after == 1));
}

// Counts a table, of which `differs` says what differs, and prints that.
pub fn count_table(rt: &impl Print, tally: &mut Tally, differs: u32) -> io::Result<()> {
    let words = [
        "a changed place ",
        "refusal ",
        "phases ",
        "events ",
        "event counts ",
    ];
    print_difference(rt, &words, differs, tally.lines[0])?;
    tally.one_more_if(Line::Tables, true);
    tally.one_more_if(Line::Agreed, differs == 0);
    Ok(())
}
