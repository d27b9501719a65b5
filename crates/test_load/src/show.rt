// How numbers, totals and sums are printed.
use load::{Figures, Ran, Sums, Totals};
use std::fmt::Display;
use std::io;
use table::{Outcome, Refusal};

// The four figures of a row, or of all of them.
fn print_figures<N: Display>(rt: &impl Print, figures: &Figures<N>) -> io::Result<()> {
    print!(rt; " {} {}", figures.realised, figures.completed)?;
    println!(rt; " {} {}", figures.breaks, figures.pending)
}

pub(crate) fn print_sums(rt: &impl Print, sums: Sums) -> io::Result<()> {
    print!(rt; "  sums")?;
    print_figures(rt, &sums)
}

// `  refused 22 line 0` if the run was refused, and nothing else.
fn print_outcome(rt: &impl Print, outcome: Outcome) -> io::Result<()> {
    match outcome {
        Ok(()) => Ok(()),
        Err(Refusal { number, line }) => println!(rt; "  refused {number} line {line}"),
    }
}

// The totals of the first `count` rows, and of a row behind them if they are not 0; and the sums.
pub(crate) fn print_ran(rt: &impl Print, ran: Ran, count: u8) -> io::Result<()> {
    print_outcome(rt, ran.outcome)?;
    for (i, totals) in ran.totals.iter().enumerate() {
        if (i < usize::from(count)) | (*totals != Totals::default()) {
            print!(rt; "  row {}", i + 1)?;
            print_figures(rt, totals)?;
        }
    }
    print_sums(rt, load::sum(ran.totals, count))
}
