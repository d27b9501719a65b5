// Prints the report of the table on standard input, as `checktable` does, but lends no index: each
// state and each predecessor is looked for among the entries from the first on. The report has to
// be the same.
#![tactic(auto)]

use std::io;

// As much scratch, and as long a trace buffer, as the program lends.
const ROOM: usize = 4096;

// No report is longer: `most_report` of the crate checker.
const MOST_REPORT: usize = 70000;

fn print_report(rt: &(impl Print + Eprint), file: &[u8]) -> io::Result<()> {
    let mut states = [0u64; ROOM];
    let mut lost = [0u16; ROOM];
    let mut index = [0u16; 0];
    let mut trace = [0u8; ROOM];
    let mut report = [0u8; MOST_REPORT];
    let length = checker::check(
        file,
        &mut states,
        &mut lost,
        &mut index,
        &mut trace,
        &mut report,
    );
    if length <= MOST_REPORT {
        if rt.write_all(&report[..length]).is_ok() {
            return Ok(());
        }
    }
    eprintln!(rt; "test_bare: the report cannot be written")
}

fn main(rt: HostRuntime) -> io::Result<()> {
    let mut file = input::buffer();
    match input::read_all(&mut rt.stdin(), &mut file) {
        Ok(length) => print_report(&rt, &file[..length]),
        Err(_) => eprintln!(rt; "test_bare: standard input cannot be read"),
    }
}
