// writetable: reads a table from standard input and prints it as a file of version 0001, written in
// one way. All that is said of a table comes from `checker::write_file`; here bytes come in and go
// out. What fails is said on standard error, and nothing is printed then.
#![tactic(auto)]

use std::io;

// No file is longer: `most_bytes` of the crate table.
const MOST_BYTES: usize = 4096;

// Kept: like its two twins: one generic over maker, buffer and words would be no plainer.
fn print_file(rt: &(impl Print + Eprint), file: &[u8]) -> io::Result<()> {
    let mut written = [0u8; MOST_BYTES];
    let length = checker::write_file(file, &mut written);
    if let Err(error) = rt.write_all(&written[..length]) {
        eprintln!(rt; "writetable: the file cannot be written: {error}")?;
    }
    Ok(())
}

fn main(rt: HostRuntime) -> io::Result<()> {
    let mut file = input::buffer();
    match input::read_all(&mut rt.stdin(), &mut file) {
        Ok(length) => print_file(&rt, &file[..length]),
        Err(_) => eprintln!(rt; "writetable: standard input cannot be read"),
    }
}
