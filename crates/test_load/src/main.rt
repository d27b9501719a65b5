// The load of document 02, ask 5: its numbers and letters; runs of small tables, with the totals of
// each row (realised, completed, breaks, open) and their sums; the refusals; and the text of a run
// in buffers that are too short and too long for it.
#![tactic(auto)]

mod rows;
mod show;

ghost use Rattle.std.specs.Prelude.{◌≤◌};

use load::Totals;
use rows::{broken_alone, every_tick, first_boards};
use show::{print_ran, print_sums};
use std::io;
use table::{MOST_ROWS, Table};

// The least and the largest number that a load can start from.
const LEAST: u32 = 0;

const LARGEST: u32 = 4294967295;

// So many numbers or letters are shown.
const SHOWN: u32 = 5;

// The text of a run is written to so many bytes or fewer.
const ROOM: usize = 64;

fn print_numbers(rt: &impl Print, start: u32) -> io::Result<()> {
    print!(rt; "numbers from {start}:")?;
    let mut number = start;
    for _ in 0..SHOWN {
        number = load::next_number(number);
        print!(rt; " {number}")?;
    }
    println!(rt)
}

// The letters of the first numbers from 1.
fn print_letters(rt: &impl Print, signals: u8) -> io::Result<()> {
    print!(rt; "letters with signals {signals}:")?;
    let mut number: u32 = 1;
    for _ in 0..SHOWN {
        number = load::next_number(number);
        print!(rt; " {}", load::letter_of(signals, number))?;
    }
    println!(rt)
}

fn print_run(rt: &impl Print, name: &str, table: Table, start: u32, ticks: u32) -> io::Result<()> {
    println!(rt; "{name} from {start}, ticks {ticks}")?;
    print_ran(rt, load::run(table, start, ticks), table.count)
}

fn numbers_and_letters(rt: &impl Print) -> io::Result<()> {
    for start in [1, LEAST, LARGEST] {
        print_numbers(rt, start)?;
    }
    for signals in [6, 2, 1, 0, 7, 255] {
        print_letters(rt, signals)?;
    }
    Ok(())
}

// Runs that are taken.
fn runs(rt: &impl Print) -> io::Result<()> {
    let boards = first_boards();
    for ticks in [0, 1, 6] {
        print_run(rt, "P, Q and S", boards, 1, ticks)?;
    }
    let apart = broken_alone();
    for start in [1, LEAST, LARGEST] {
        print_run(rt, "one row breaks", apart, start, 1000)?;
    }
    Ok(())
}

// The most ticks, and more; and a table with nine rows, which comes first.
fn most_ticks(rt: &impl Print) -> io::Result<()> {
    let eight = every_tick(8);
    for ticks in [0, 1, 65535, 65536, LARGEST] {
        print_run(rt, "eight rows", eight, 1, ticks)?;
    }
    let nine = every_tick(9);
    for ticks in [1, 65536] {
        print_run(rt, "nine rows", nine, 1, ticks)?;
    }
    Ok(())
}

// The sums of the first `count` rows, where every total is the largest.
fn largest_sums(rt: &impl Print, count: u8) -> io::Result<()> {
    let most = Totals {
        realised: 65535,
        completed: 65535,
        breaks: 65535,
        pending: 65535,
    };
    println!(rt; "largest totals, rows {count}")?;
    print_sums(rt, load::sum([most; MOST_ROWS], count))
}

// A text and its length. What it has no place for is not in it.
#[derive(Clone, Copy, Debug, PartialEq, Eq)]
struct Text {
    length: usize,
    bytes: [u8; ROOM],
}

// The text of a run in the first `lent` bytes of those that there are.
fn text_of(table: Table, ticks: u32, lent: usize) -> Text
    requires { lent ≤ 64 }
{
    let mut bytes = [b'.'; ROOM];
    let ran = load::run(table, 1, ticks);
    let length = totals::write(ran, table.count, &mut bytes[..lent]);
    Text { length, bytes }
}

fn print_text(rt: &impl Print, name: &str, table: Table, ticks: u32, lent: usize) -> io::Result<()>
    requires { lent ≤ 64 }
{
    let Text { length, bytes } = text_of(table, ticks, lent);
    println!(rt; "{name}, text in {lent} of 64 bytes, its length {length}")?;
    rt.write_all(&bytes)?;
    println!(rt)
}

fn texts(rt: &impl Print) -> io::Result<()> {
    let boards = first_boards();
    let name = "P, Q and S";
    print_text(rt, name, boards, 6, 64)?;
    print_text(rt, name, boards, 6, 56)?;
    print_text(rt, name, boards, 6, 50)?;
    print_text(rt, name, boards, 6, 0)?;
    print_text(rt, "too many ticks", boards, 65536, 64)
}

fn main(rt: HostRuntime) -> io::Result<()> {
    numbers_and_letters(&rt)?;
    runs(&rt)?;
    most_ticks(&rt)?;
    for count in [8, 3, 0, 255] {
        largest_sums(&rt, count)?;
    }
    texts(&rt)
}
