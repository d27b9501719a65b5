// Reading all of an input into a lent buffer, in as many pieces as it comes: for every program that
// reads a table. specs/Input.antt says what is right.
#![tactic(auto)]

ghost use Rattle.std.specs.Prelude.{◌≡◌, suc, ◌≤◌, length, replicate};
ghost use Rattle.table.specs.Limits.{most_bytes};
ghost use Rattle.input.specs.Input.{Brought, Reads, Takes, TakesAll, Fits};

use std::io;
use std::io::Read;

// So much of a table file is read: of one that is too long the first bytes are enough to say so.
pub const MOST_READ: usize = 4097;

// The buffer for a table file: one byte more than a file may have.
pub fn buffer() -> [u8; MOST_READ]
    ensures { result ≡ replicate (suc most_bytes) 0 }
{
    [0u8; MOST_READ]
}

// One piece, into the buffer from place `done` on: how many bytes, and none at the end of the input.
// What stands before that place stays.
fn read_piece<R: Read>(reader: &mut R, file: &mut [u8], done: usize) -> io::Result<usize>
    requires { done ≤ length file.old }
    ensures brought { Brought done file.old result file.new }
    ensures taken { Takes (R.remaining reader.old) (R.remaining reader.new) done result file.new }
{
    reader.read(&mut file[done..])
}

// Reads until the input ends, the buffer is full or reading fails, and answers how many bytes came.
pub fn read_all<R: Read>(reader: &mut R, file: &mut [u8]) -> io::Result<usize>
    ensures pieces { Reads 0 file.old result file.new }
    ensures taken { TakesAll (R.remaining reader.old) (R.remaining reader.new) result file.new }
    ensures fits { Fits result file.new }
{
    let mut done: usize = 0;
    // Kept: a while, as each call brings as many bytes as the reader likes: no chain is plainer.
    while done < file.len() {
        let n = read_piece(reader, file, done)?;
        if n == 0 {
            return Ok(done);
        }
        done += n;
    }
    Ok(done)
}
