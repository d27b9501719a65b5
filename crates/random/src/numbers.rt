// Random numbers. Nothing is kept between choices: a seed stands for a table, a row or a set,
// `seed ^ k` for its choice number k, and the number for a choice is mixed from that.

// A step of a generator that multiplies one half and takes in the other.
fn turn(x: u64) -> u64 {
    ((x % 0x1_0000_0000) * 0x9e37_79b9) ^ (x >> 32)
}

pub fn mixed(x: u64) -> u64 {
    turn(turn(turn(turn(x))))
}

// A number below n, or 0.
pub fn below(seed: u64, n: u16) -> u16 {
    let [_, _, low, high, ..] = mixed(seed).to_le_bytes();
    u16::from_le_bytes([low, high]).checked_rem(n).unwrap_or(0)
}

pub fn byte_below(seed: u64, n: u8) -> u8 {
    let [_, _, _, byte, ..] = mixed(seed).to_le_bytes();
    byte.checked_rem(n).unwrap_or(0)
}

// Whether a chance of one in n came up.
pub fn one_in(seed: u64, n: u16) -> bool {
    below(seed, n) == 0
}
