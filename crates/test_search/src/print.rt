// How a case, its answer and its lists are printed.
use crate::run::{ALL, LONG, TRACE};
use std::io;
use table::Refusal;
use verdict::{Finding, Found};

// A word, and after it n numbers of one of the list's parts, from its first place on.
pub fn print_part(
    rt: &impl Print,
    word: &str,
    held: &[u64; ALL],
    from: usize,
    n: usize,
) -> io::Result<()> {
    print!(rt; "{word}")?;
    if TRACE < from {
        return Ok(());
    }
    for i in 0..LONG {
        if i < n {
            let number = held[from + i];
            print!(rt; " {number}")?;
        }
    }
    Ok(())
}

// The first `length` letters of a buffer that has n.
pub fn print_trace(rt: &impl Print, length: u16, held: &[u64; ALL], n: usize) -> io::Result<()> {
    if (length as usize) <= n {
        print_part(rt, ", trace", held, TRACE, length as usize)
    } else {
        print!(rt; ", trace longer than its buffer: {length}")
    }
}

// The rows of a set, from 1: `, never 2 3 5`, or `, never -` if there is none.
fn print_never(rt: &impl Print, never: u64) -> io::Result<()> {
    print!(rt; ", never")?;
    if never == 0 {
        print!(rt; " -")?;
    }
    let mut left = never;
    for row in 1..=64 {
        if left % 2 == 1 {
            print!(rt; " {row}")?;
        }
        left = left / 2;
    }
    Ok(())
}

// `trapped, 2 states, lost 1, never -`, or `no verdict` and no list, with `refused 21 line 0, `
// before it, if the call is refused. Answers how many letters the trace has.
pub fn print_found(rt: &impl Print, found: Found) -> io::Result<u16> {
    match found {
        Err(Refusal { number, line }) => {
            print!(rt; "refused {number} line {line}, no verdict, 0 states, lost 0")?;
            Ok(0)
        }
        Ok(Finding::Sound(summary)) => {
            print!(rt; "sound, {} states, lost 0", summary.count)?;
            print_never(rt, summary.lists.never)?;
            Ok(0)
        }
        Ok(Finding::Trapped(summary, trap)) => {
            print!(rt; "trapped, {} states, lost {}", summary.count, trap.lost)?;
            print_never(rt, summary.lists.never)?;
            Ok(trap.length)
        }
    }
}
