// Document 02, ask 6: small tables and the files that they are written as; and tables written in
// buffers of several lengths, with the number, the length and what became of the bytes behind it.
#![tactic(auto)]

ghost use Rattle.std.specs.Prelude.{◌≤◌};

use std::io;
use table::{ASE, Outcome, Refusal, TSE, Table};
use writer::Written;

// There are so many bytes, some more than a file has at most, and at first each is the mark.
const ROOM: usize = 4200;

const MARK: u8 = b'#';

// What a call answers, and the bytes after it.
#[derive(Clone, Copy, Debug, PartialEq, Eq)]
struct Call {
    written: Written,
    bytes: [u8; ROOM],
}

// Writes a table to the first `lent` bytes.
fn write_lent(table: Table, lent: usize) -> Call
    requires { lent ≤ 4200 }
{
    let mut bytes = [MARK; ROOM];
    let written = writer::write(table, &mut bytes[..lent]);
    Call { written, bytes }
}

// Whether all bytes from a place on are marks.
fn unchanged(bytes: [u8; ROOM], from: usize) -> bool {
    bytes.iter().skip(from).all(|byte| *byte == MARK)
}

fn print_outcome(rt: &impl Print, outcome: Outcome) -> io::Result<()> {
    match outcome {
        Ok(()) => print!(rt; ": written"),
        Err(Refusal { number, line }) => print!(rt; ": refused {number} line {line}"),
    }
}

// `  in 168 bytes: refused 24 line 0, length 0, the bytes behind unchanged`: where the length is 0,
// these are all bytes.
fn show_lent(rt: &impl Print, table: Table, lent: usize) -> io::Result<()>
    requires { lent ≤ 4200 }
{
    let Call { written, bytes } = write_lent(table, lent);
    let Written { outcome, length } = written;
    print!(rt; "  in {lent} bytes")?;
    print_outcome(rt, outcome)?;
    let behind = if unchanged(bytes, length) {
        "unchanged"
    } else {
        "changed"
    };
    println!(rt; ", length {length}, the bytes behind {behind}")
}

// The table of a file. One that is refused gives the empty table, which is not written.
fn table_of(file: &str) -> Table {
    reader::read(file.as_bytes()).table
}

fn print_front(rt: &impl Print, bytes: &[u8], length: usize) -> io::Result<()> {
    if length <= bytes.len() {
        rt.write_all(&bytes[..length])?;
    }
    Ok(())
}

// A file, and what its table is written as.
fn show_text(rt: &impl Print, file: &str) -> io::Result<()> {
    let Call { written, bytes } = write_lent(table_of(file), ROOM);
    println!(rt; "{file}is written")?;
    print_front(rt, &bytes, written.length)
}

fn texts(rt: &impl Print) -> io::Result<()> {
    show_text(
        rt,
        "PNP 0001\nsignals a c\nrule a,c,(a|c)&!(a&c),0,0,0,0,!a&!c,a&!a,a|!a,0,0\n",
    )?;
    show_text(
        rt,
        "PNP 0001\nsignals c a\nrule c,a,c&a,0,0,0,0,!c,!a,c|a,0,0\n",
    )?;
    show_text(
        rt,
        "PNP 0001\nsignals a c e\nrule a&!e,1,0,0,9,10,60,!1,!0,a&c&e,9,10\n",
    )?;
    show_text(
        rt,
        "PNP 0001\nsignals a\nrule a|!a,a&!a,!!a,0,0,1,1,(a),!a,!(!a),0,60\n",
    )
}

// The table of document 01's report, which takes 169 bytes.
fn report_table() -> Table {
    table_of(
        "PNP 0001\nsignals a c\nrule a,a,a,0,0,1,1,c,c,c,0,0\n\
        rule a,a,a,0,0,1,1,!c,!c,!c,0,0\n",
    )
}

// Names of eight letters, and one row: it takes 4,096 bytes.
fn full_table() -> Table {
    table_of(
        "PNP 0001\nsignals aaaaaaaa bbbbbbbb cccccccc dddddddd eeeeeeee ffffffff\n\
        rule aaaaaaaa,aaaaaaaa,aaaaaaaa&bbbbbbbb&cccccccc&dddddddd,0,10,0,0,\
        aaaaaaaa&bbbbbbbb&cccccccc&dddddddd&eeeeeeee,\
        !aaaaaaaa&!bbbbbbbb&!cccccccc&!dddddddd&!eeeeeeee&!ffffffff,0,0,0\n",
    )
}

// A short file whose table takes 4,357 bytes.
fn long_table() -> Table {
    table_of(
        "PNP 0001\nsignals down vacuum blow feed door air\n\
        rule down,down,down,0,0,0,5,down,0,0,0,0\n",
    )
}

// Buffers that are as long as the file, shorter and longer.
fn buffers(rt: &impl Print, table: Table) -> io::Result<()> {
    println!(rt; "169 bytes")?;
    show_lent(rt, table, 169)?;
    show_lent(rt, table, 168)?;
    show_lent(rt, table, 170)?;
    show_lent(rt, table, 200)?;
    show_lent(rt, table, 0)
}

// A file of 4,096 bytes; and one with a digit more.
fn longest(rt: &impl Print, table: Table) -> io::Result<()> {
    println!(rt; "4096 bytes")?;
    show_lent(rt, table, 4096)?;
    show_lent(rt, table, 4095)?;
    show_lent(rt, table, ROOM)?;
    let mut longer = table;
    longer.rows[0].lmax = 10;
    println!(rt; "4097 bytes")?;
    show_lent(rt, longer, 4096)?;
    show_lent(rt, longer, ROOM)
}

// A file that is too long for a buffer as well; and the same without the letters of its ASE.
fn too_long(rt: &impl Print, table: Table) -> io::Result<()> {
    println!(rt; "4357 bytes")?;
    show_lent(rt, table, ROOM)?;
    show_lent(rt, table, 0)?;
    let mut shorter = table;
    shorter.rows[0].sets[ASE] = 0;
    println!(rt; "3287 bytes")?;
    show_lent(rt, shorter, ROOM)
}

// Values that 17 turns down, where 23 or 24 would do so too.
fn not_valid(rt: &impl Print, table: Table, long: Table) -> io::Result<()> {
    println!(rt; "the empty table")?;
    show_lent(rt, table_of(""), 200)?;
    show_lent(rt, table_of(""), 0)?;
    let mut far = table;
    far.rows[0].sets[TSE] = 16;
    println!(rt; "letter 4 with two signals")?;
    show_lent(rt, far, 200)?;
    show_lent(rt, far, 0)?;
    let mut slow = long;
    slow.rows[0].tmax = 61;
    println!(rt; "4358 bytes, with a bound of 61")?;
    show_lent(rt, slow, 200)
}

fn main(rt: HostRuntime) -> io::Result<()> {
    texts(&rt)?;
    buffers(&rt, report_table())?;
    longest(&rt, full_table())?;
    too_long(&rt, long_table())?;
    not_valid(&rt, report_table(), long_table())
}
