// What a call should answer, from what the second writer put and from what was lent, and the whole
// buffer held against it. What differs is a set of bits, whose words tally.rt has.
ghost use Rattle.std.specs.Prelude.{◌≤◌, length, IfOk};

use crate::LONGEST;
use random::tally::{refused, unless};
use table::{MOST_BYTES, Refusal};
use writer::Written;

// What is written. "23 the file would exceed 4,096 bytes, then 24 the lent buffer is shorter than the
// file, both after 17".
pub fn expect(valid: bool, file: Option<&[u8]>, lent: usize) -> Result<&[u8], Refusal>
    ensures { IfOk result (λ put. length put.now ≤ 4096) }
{
    if !valid {
        return refused(17);
    }
    match file {
        Some(file) if file.len() <= MOST_BYTES => {
            if lent < file.len() {
                refused(24)
            } else {
                Ok(file)
            }
        }
        _ => refused(23),
    }
}

// The length is 0 under a refusal.
pub fn compare_answers(written: Written, right: Result<&[u8], Refusal>) -> u32 {
    let outcome = right.map(|_| ());
    let length = right.map_or(0, |file| file.len());
    unless(written.outcome == outcome, 1) | unless(written.length == length, 2)
}

// The file stands at the buffer's front; "the bytes behind it are unchanged".
pub fn right_bytes(before: [u8; LONGEST], right: Result<&[u8], Refusal>) -> [u8; LONGEST] {
    let mut bytes = before;
    for (byte, put) in bytes.iter_mut().zip(right.unwrap_or(b"")) {
        *byte = *put;
    }
    bytes
}
