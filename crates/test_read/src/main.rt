// Reads each file that its arguments name and prints what the reader makes of it: the refusal, or
// the table.
#![tactic(auto)]

use std::fs::File;
use std::rt::Files;
use std::{env, io};
use table::{Name, Refusal, Row, Table};

// The letters up to a 0.
#[tactic(auto, using(text::proofs::Splits::front_length))]
fn print_name(rt: &impl Print, name: Name) -> io::Result<()> {
    print!(rt; " ")?;
    let n = text::find(&name.chars, 0);
    rt.write_all(&name.chars[..n])
}

// `  sets 10 10 10 12 12 12 ticks 0 0 1 1 0 0`.
fn print_row(rt: &impl Print, row: Row) -> io::Result<()> {
    print!(rt; "  sets")?;
    for set in row.sets {
        print!(rt; " {set}")?;
    }
    print!(rt; " ticks")?;
    for bound in [row.tmin, row.tmax, row.lmin, row.lmax, row.amin, row.amax] {
        print!(rt; " {bound}")?;
    }
    println!(rt)
}

fn print_table(rt: &impl Print, table: Table) -> io::Result<()> {
    let Table {
        signals,
        names,
        count,
        rows,
    } = table;
    print!(rt; "signals {signals}")?;
    for name in names.into_iter().take(signals as usize) {
        print_name(rt, name)?;
    }
    let valid = if table::valid(table) {
        "valid"
    } else {
        "not valid"
    };
    println!(rt; " rows {count} {valid}")?;
    for row in rows.into_iter().take(count as usize) {
        print_row(rt, row)?;
    }
    Ok(())
}

// Whether everything in a table is 0, the places that are not used included.
fn is_empty(table: Table) -> bool {
    let none = (table.signals == 0) & (table.count == 0);
    none & table::names::rest_unused(table.names, 0) & table::rows::rest_unused(table.rows, 0)
}

fn show(rt: &impl Print, bytes: &[u8]) -> io::Result<()> {
    let read = reader::read(bytes);
    match read.outcome {
        Ok(()) => print_table(rt, read.table),
        Err(Refusal { number, line }) => {
            let empty = if is_empty(read.table) {
                "empty"
            } else {
                "not empty"
            };
            println!(rt; "refused {number} line {line} table {empty}")
        }
    }
}

fn show_file(rt: &(impl Print + Files), name: &str) -> io::Result<()> {
    print!(rt; "{name}: ")?;
    let Ok(mut file) = File::open(rt, name) else {
        return println!(rt; "no such file");
    };
    let mut buffer = [0u8; 5000];
    match input::read_all(&mut file, &mut buffer) {
        Ok(n) => show(rt, &buffer[..n]),
        Err(_) => show(rt, b""),
    }
}

fn main(rt: HostRuntime) -> io::Result<()> {
    for name in env::args(&rt)?.skip(1) {
        show_file(&rt, name.as_str())?;
    }
    Ok(())
}
