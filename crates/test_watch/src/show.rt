// How outcomes, codes, events and counts are printed.
use crate::runs::Run;
use pass::Watch;
use std::io;
use step::Events;
use table::{MOST_ROWS, Outcome, Refusal};
use watcher::Counts;

// `refused 19 line 0, ` if the call is refused, and nothing else.
pub(crate) fn print_outcome(rt: &impl Print, outcome: Outcome) -> io::Result<()> {
    match outcome {
        Ok(()) => Ok(()),
        Err(Refusal { number, line }) => print!(rt; "refused {number} line {line}, "),
    }
}

pub(crate) fn print_codes(rt: &impl Print, watch: Watch) -> io::Result<()> {
    print!(rt; "codes")?;
    for phase in watch.slots {
        let code = phases::code(phase);
        print!(rt; " {code}")?;
    }
    Ok(())
}

// A row's events at a tick: `started+realised`, or `-` for none.
fn print_events(rt: &impl Print, events: &Events) -> io::Result<()> {
    let words = [
        (events.started, "started"),
        (events.realised, "realised"),
        (events.aborted, "aborted"),
        (events.acting, "acting"),
        (events.completed, "completed"),
        (events.broken, "broken"),
    ];
    let mut any = false;
    for (happened, word) in words {
        if happened {
            print!(rt; "{}{word}", if any { "+" } else { "" })?;
            any = true;
        }
    }
    if !any {
        print!(rt; "-")?;
    }
    Ok(())
}

// The events of a tick of the rows that are used, and of another that has any.
fn print_rows(rt: &impl Print, events: &[Events; MOST_ROWS], used: usize) -> io::Result<()> {
    for (j, row) in events.iter().enumerate() {
        if (j < used) | (*row != Events::default()) {
            if 0 < j {
                print!(rt; " ")?;
            }
            print_events(rt, row)?;
        }
    }
    Ok(())
}

// The ticks that were made, a line for each. Only the last can be refused.
pub(crate) fn print_ticks(rt: &impl Print, run: Run, used: usize) -> io::Result<()> {
    for (i, events) in (1..).zip(run.events.iter()).take(run.ticks) {
        print!(rt; "    tick {i}: ")?;
        if i == run.ticks {
            print_outcome(rt, run.answer.outcome)?;
        }
        print_rows(rt, events, used)?;
        println!(rt)?;
    }
    Ok(())
}

// The counts of the rows that are used, a line for each, and of another that has any.
pub(crate) fn print_counts(rt: &impl Print, run: Run, used: usize) -> io::Result<()> {
    for (j, row) in run.answer.counts.iter().enumerate() {
        if (j < used) | (*row != Counts::default()) {
            let Counts {
                started,
                realised,
                aborted,
                acting,
                completed,
                broken,
            } = *row;
            println!(rt;
                "    counts {started} {realised} {aborted} {acting} {completed} {broken}"
            )?;
        }
    }
    Ok(())
}
