// Each case goes three ways (`runs`). What each gives is printed, and compared: outcome, all eight
// phases and all counts of the three, and all events of the two that tick letter by letter.
use crate::runs::{Run, by_play, by_rows, by_table};
use crate::show::{print_codes, print_counts, print_outcome, print_ticks};
use pass::Watch;
use std::io;
use step::Phase;
use table::{MOST_ROWS, Refusal, Table};

// How many cases were answered alike all ways, and how many not.
#[derive(Clone, Copy, Debug, Default, PartialEq, Eq)]
pub(crate) struct Tally {
    pub alike: u16,
    pub unlike: u16,
}

impl Tally {
    fn count(&mut self, alike: bool) {
        self.alike = self.alike.saturating_add(u16::from(alike));
        self.unlike = self.unlike.saturating_add(u16::from(!alike));
    }
}

// A case the three ways.
#[derive(Clone, Copy, Debug, PartialEq, Eq)]
struct Ways {
    played: Run,
    ticked: Run,
    lent: Run,
}

impl Ways {
    fn of(table: Table, watch: Watch, trace: &[u8]) -> Ways {
        Ways {
            played: by_play(table, watch, trace),
            ticked: by_table(table, watch, trace),
            lent: by_rows(table, watch, trace),
        }
    }

    // Whether the trace went alike.
    fn alike(&self) -> bool {
        self.played.answer == self.ticked.answer && self.ticked == self.lent
    }
}

fn print_way(rt: &impl Print, name: &str, run: Run) -> io::Result<()> {
    print!(rt; "{name}")?;
    print_outcome(rt, run.answer.outcome)?;
    print_codes(rt, run.answer.watch)?;
    println!(rt)
}

// A trace all three ways: what each gives, and a line more if they differ. Of the rows those are
// shown that a table can have.
pub(crate) fn print_ways(
    rt: &impl Print,
    tally: &mut Tally,
    table: Table,
    watch: Watch,
    trace: &[u8],
) -> io::Result<()> {
    let ways = Ways::of(table, watch, trace);
    let used = usize::from(table.count).max(1).min(MOST_ROWS);
    print_way(rt, "  played: ", ways.played)?;
    print_counts(rt, ways.played, used)?;
    print_way(rt, "  ticked: ", ways.ticked)?;
    print_ticks(rt, ways.ticked, used)?;
    print_way(rt, "  lent: ", ways.lent)?;
    print_ticks(rt, ways.lent, used)?;
    let alike = ways.alike();
    if !alike {
        println!(rt; "  these differ")?;
    }
    tally.count(alike);
    Ok(())
}

fn print_noticed(rt: &impl Print, name: &str, ways: Ways) -> io::Result<()> {
    let noticed = if ways.alike() {
        "not noticed"
    } else {
        "noticed"
    };
    println!(rt; "{name}: {noticed}")
}

// The comparison sees one place that is spoilt: the last row's phase, the number, or for a trace of
// two ticks the last row's last event or count.
pub(crate) fn print_spoilt(
    rt: &impl Print,
    table: Table,
    watch: Watch,
    trace: &[u8],
) -> io::Result<()> {
    let ways = Ways::of(table, watch, trace);
    print_noticed(rt, "nothing spoilt", ways)?;
    let mut phase = ways;
    phase.lent.answer.watch.slots[MOST_ROWS - 1] = Phase::Broken;
    print_noticed(rt, "last row spoilt", phase)?;
    let mut number = ways;
    number.lent.answer.outcome = Err(Refusal {
        number: 18,
        line: 0,
    });
    print_noticed(rt, "number spoilt", number)?;
    let mut event = ways;
    event.lent.events[1][MOST_ROWS - 1].broken ^= true;
    print_noticed(rt, "event spoilt", event)?;
    let mut count = ways;
    count.played.answer.counts[MOST_ROWS - 1].broken ^= 1;
    print_noticed(rt, "count spoilt", count)
}

// How many cases went alike all ways.
pub(crate) fn print_tally(rt: &impl Print, tally: Tally) -> io::Result<()> {
    let Tally { alike, unlike } = tally;
    println!(rt; "all ways: {alike} alike, {unlike} not")
}
