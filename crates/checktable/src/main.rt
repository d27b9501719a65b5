// checktable: reads a table from standard input and prints its report. All that is said of a table
// comes from `checker::check_file`; here bytes come in and go out. What fails is said on standard
// error, and nothing is printed then.
#![tactic(auto)]

use std::io;

// No report is longer: `most_report` of the crate checker.
const MOST_REPORT: usize = 70000;

// Kept: like its two twins: one generic over maker, buffer and words would be no plainer.
fn print_report(rt: &(impl Print + Eprint), file: &[u8]) -> io::Result<()> {
    let mut report = [0u8; MOST_REPORT];
    let length = checker::check_file(file, &mut report);
    if let Err(error) = rt.write_all(&report[..length]) {
        eprintln!(rt; "checktable: the report cannot be written: {error}")?;
    }
    Ok(())
}

fn main(rt: HostRuntime) -> io::Result<()> {
    let mut file = input::buffer();
    match input::read_all(&mut rt.stdin(), &mut file) {
        Ok(length) => print_report(&rt, &file[..length]),
        Err(_) => eprintln!(rt; "checktable: standard input cannot be read"),
    }
}
