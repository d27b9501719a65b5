// loadtable: reads a table from standard input, runs it through a fixed load and prints what its
// rows did. All that is said of a table comes from `checker::load_file`; here bytes come in and go
// out. What fails is said on standard error, and nothing is printed then.
#![tactic(auto)]

use std::io;

// No text is longer: `most_totals` of the crate checker.
const MOST_TOTALS: usize = 1000;

// Kept: like its two twins: one generic over maker, buffer and words would be no plainer.
fn print_totals(rt: &(impl Print + Eprint), file: &[u8]) -> io::Result<()> {
    let mut totals = [0u8; MOST_TOTALS];
    let length = checker::load_file(file, &mut totals);
    if let Err(error) = rt.write_all(&totals[..length]) {
        eprintln!(rt; "loadtable: the totals cannot be written: {error}")?;
    }
    Ok(())
}

fn main(rt: HostRuntime) -> io::Result<()> {
    let mut file = input::buffer();
    match input::read_all(&mut rt.stdin(), &mut file) {
        Ok(length) => print_totals(&rt, &file[..length]),
        Err(_) => eprintln!(rt; "loadtable: standard input cannot be read"),
    }
}
