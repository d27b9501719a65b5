// The checker: the bytes of a table file in, the bytes of its report, of its totals or of its table
// written again out. specs/FileReport.antt and specs/FileLoad.antt, and `RightWriting` of the crate
// demands, say what is right, for every file and all lent memory.
#![tactic(auto, unfolding(crate::specs::Inner::Computed::check_answer, crate::specs::Inner::Computed::load_answer))]

ghost use Rattle.std.specs.Prelude.{true, ◌≡◌, length, Ok};
ghost use Rattle.table.specs.Valid.{table_valid};
ghost use Rattle.verdict.specs.Buffer.{written};
ghost use Rattle.search.specs.Lent.{lent_lists};
ghost use Rattle.checker.specs.FileReport.{program_lent};
ghost use Rattle.checker.specs.Inner.Computed.{check_call};
ghost use Rattle.checker.specs.Inner.Computed.{check_answer, load_answer};
ghost use Rattle.checker.specs.Inner.Computed.{after_writing, writing_answer};

use scratch::MOST_INDEX;
use table::{MOST_BYTES, Table};

// "The program lends room 4,096 and a trace buffer of as many bytes."
const ROOM: usize = 4096;

// "Takes 1,000 ticks from 1".
const LOAD_START: u32 = 1;

const LOAD_TICKS: u32 = 1000;

// Reads the file, searches its table with the scratch, the index and the trace buffer that are
// lent, writes the report from the front of `out`, and answers the report's length. If that is more
// than `out` holds, `out` has the report's front. The lent memory of a refused file is unchanged.
// Kept: the four lent lists apart, as the contract's `lent_lists` and the search take them.
pub fn check(
    bytes: &[u8],
    states: &mut [u64],
    lost: &mut [u16],
    index: &mut [u16],
    trace: &mut [u8],
    out: &mut [u8],
) -> usize
    ensures { record {
      length = result;
      out = out.new;
      lent = lent_lists states.new lost.new index.new
          trace.new;
    }
        ≡ check_call bytes.now (lent_lists states.old lost.old
        index.old trace.old) out.old }
{
    let read = reader::read(bytes);
    match read.outcome {
        Err(refusal) => report::write(Err(refusal), 0, 0, trace, out),
        Ok(()) => {
            let table = read.table;
            let found = search::search(table, states, lost, index, trace);
            report::write(found, table.count, table.signals, trace, out)
        }
    }
}

// The same in memory of its own, as much as the program lends.
pub fn check_file(bytes: &[u8], out: &mut [u8]) -> usize
    ensures value { result ≡ length (check_answer bytes.now program_lent).report }
    ensures out_after { out.new
        ≡ written (check_answer bytes.now program_lent).report out.old }
{
    let mut states = [0u64; ROOM];
    let mut lost = [0u16; ROOM];
    let mut index = [0u16; MOST_INDEX];
    let mut trace = [0u8; ROOM];
    check(bytes, &mut states, &mut lost, &mut index, &mut trace, out)
}

// Reads the file, runs its table through the load of the program `loadtable`, writes the totals
// from the front of `out`, and answers their length. If that is more than `out` holds, `out` has
// their front.
pub fn load_file(bytes: &[u8], out: &mut [u8]) -> usize
    ensures value { result ≡ length (load_answer bytes.now) }
    ensures out_after { out.new
        ≡ written (load_answer bytes.now) out.old }
{
    let read = reader::read(bytes);
    match read.outcome {
        Err(refusal) => totals::write(load::refused(refusal), 0, out),
        Ok(()) => {
            let ran = load::run(read.table, LOAD_START, LOAD_TICKS);
            totals::write(ran, read.table.count, out)
        }
    }
}

// The written table, or its refused line.
#[tactic(auto, unfolding(writer::specs::File::write_answer))]
fn write_table(table: Table, out: &mut [u8; MOST_BYTES]) -> usize
    requires { table_valid table ≡ true }
    ensures value { result ≡ length (after_writing (Ok tt) table) }
    ensures out_after { out.new ≡ written (after_writing (Ok tt) table) out.old }
{
    let call = writer::write(table, out);
    match call.outcome {
        Err(refusal) => lines::write_refused(refusal, out),
        Ok(()) => call.length,
    }
}

// Reads the file, writes its table from the front of `out` as a file of version 0001, in one way,
// and answers the file's length. A file that is refused, and a table that is too long to be
// written, give their refused line instead. `out` is as long as a file can be, so 24 never comes
// up.
#[tactic(auto, using(crate::proofs::Writing::accepted_valid), unfolding(crate::specs::Inner::Computed::writing_answer))]
pub fn write_file(bytes: &[u8], out: &mut [u8; MOST_BYTES]) -> usize
    ensures value { result ≡ length (writing_answer bytes.now) }
    ensures out_after { out.new
        ≡ written (writing_answer bytes.now) out.old }
{
    let read = reader::read(bytes);
    match read.outcome {
        Err(refusal) => lines::write_refused(refusal, out),
        Ok(()) => write_table(read.table, out),
    }
}
