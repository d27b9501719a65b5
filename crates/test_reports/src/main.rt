// Its arguments are files of tables/, four by four: a table, and the report, the totals and the
// written file that are stored beside it. Of each table it says whether the checker makes these of
// it, and if not, what it makes. The last three are spoilt on purpose, so that one sees that a
// difference is noticed.
#![tactic(auto)]

ghost use Rattle.std.specs.Prelude.{◌≡◌, ◌≤◌, length, take};

use std::fs::File;
use std::rt::{Files, Runtime};
use std::{env, io};

// No report and no totals are longer.
const MOST_READ: usize = 5000;

// No written file is longer.
const MOST_BYTES: usize = 4096;

// Reads the file of this name: how many bytes it has, and 0 if it cannot be read.
fn read_file(rt: &impl Files, name: &str, file: &mut [u8]) -> usize
    ensures within { result ≤ length file.new }
    ensures counts { result ≡ length (take result file.new) }
{
    let Ok(mut opened) = File::open(rt, name) else {
        return 0;
    };
    match input::read_all(&mut opened, file) {
        Ok(n) => n,
        Err(_) => 0,
    }
}

// Prints the first word if a text is the one stored, and else the other.
fn say(rt: &impl Print, made: &[u8], stored: &[u8], word: &str, other: &str) -> io::Result<()> {
    let said = if made == stored { word } else { other };
    print!(rt; "{said}")
}

// Prints a text that is not the one stored.
fn print_other(rt: &impl Print, made: &[u8], stored: &[u8]) -> io::Result<()> {
    if made != stored {
        rt.write_all(made)?;
    }
    Ok(())
}

// Says whether a report, totals and a file are those stored behind them, and prints what is not.
fn compare(
    rt: &impl Print,
    report: &[u8],
    its_report: &[u8],
    totals: &[u8],
    its_totals: &[u8],
    written: &[u8],
    its_file: &[u8],
) -> io::Result<()> {
    say(rt, report, its_report, ": its report", ": another report")?;
    say(rt, totals, its_totals, ", its totals", ", other totals")?;
    say(rt, written, its_file, ", its file\n", ", another file\n")?;
    print_other(rt, report, its_report)?;
    print_other(rt, totals, its_totals)?;
    print_other(rt, written, its_file)
}

fn check_table(
    rt: &impl Print,
    file: &[u8],
    its_report: &[u8],
    its_totals: &[u8],
    its_file: &[u8],
) -> io::Result<()> {
    let mut report = [0u8; MOST_READ];
    let mut totals = [0u8; MOST_READ];
    let mut written = [0u8; MOST_BYTES];
    let length = checker::check_file(file, &mut report);
    let end = checker::load_file(file, &mut totals);
    let size = checker::write_file(file, &mut written);
    if MOST_READ < length {
        println!(rt; ": a longer report")
    } else if MOST_READ < end {
        println!(rt; ": longer totals")
    } else if MOST_BYTES < size {
        println!(rt; ": a longer file")
    } else {
        compare(
            rt,
            &report[..length],
            its_report,
            &totals[..end],
            its_totals,
            &written[..size],
            its_file,
        )
    }
}

// The names of a table, its report, its totals and its written file.
fn check_files(
    rt: &impl Runtime,
    table: &str,
    report: &str,
    totals: &str,
    written: &str,
) -> io::Result<()> {
    let mut file = [0u8; MOST_READ];
    let mut its_report = [0u8; MOST_READ];
    let mut its_totals = [0u8; MOST_READ];
    let mut its_file = [0u8; MOST_READ];
    let length = read_file(rt, table, &mut file);
    let end = read_file(rt, report, &mut its_report);
    let last = read_file(rt, totals, &mut its_totals);
    let size = read_file(rt, written, &mut its_file);
    print!(rt; "{table}")?;
    check_table(
        rt,
        &file[..length],
        &its_report[..end],
        &its_totals[..last],
        &its_file[..size],
    )
}

fn main(rt: HostRuntime) -> io::Result<()> {
    let names: Vec<String> = env::args(&rt)?.skip(1).collect(rt.alloc())?;
    for four in names.chunks_exact(4) {
        if let [table, report, totals, written] = four {
            check_files(&rt, table, report, totals, written)?;
        }
    }
    Ok(())
}
