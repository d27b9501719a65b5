// What a search should answer, from what the second search found and from what was lent.
use crate::lent::Lengths;
use second::Solved;

// The length of the trap's trace, and the lost number there.
#[derive(Clone, Copy, Debug, Default, PartialEq, Eq)]
pub struct Trap {
    pub length: usize,
    pub lost: u16,
}

// What a verdict says: the count, the set of rows that never fire, and the trap, if there is one.
#[derive(Clone, Copy, Debug, Default, PartialEq, Eq)]
pub struct Values {
    pub count: usize,
    pub never: u64,
    pub trap: Option<Trap>,
}

impl Values {
    // Under a verdict that is sound, "every other number or mark in the answer is 0 or absent".
    pub fn length_and_lost(self) -> Trap {
        self.trap.unwrap_or_default()
    }
}

// The verdict, or the number of a refusal. With it goes what the lent lists hold: the scratch has
// `used` entries, and the rest of it and the whole index are 0 if `cleared` and else unchanged.
#[derive(Clone, Copy, Debug, PartialEq, Eq)]
pub struct Expected {
    pub answer: Result<Values, u8>,
    pub used: usize,
    pub cleared: bool,
}

impl Expected {
    // The trace buffer has so many letters, the rest unchanged.
    pub fn letters(self) -> usize {
        self.answer.unwrap_or_default().length_and_lost().length
    }
}

// "The search tests 17, 20, 21".
fn answer(valid: bool, solved: &Solved, lengths: Lengths) -> Result<Values, u8> {
    if !valid {
        return Err(17);
    }
    if lengths.room() < solved.count {
        return Err(20);
    }
    if lengths.trace < solved.trace_length() {
        return Err(21);
    }
    Ok(Values {
        count: solved.count,
        never: solved.never.rows,
        trap: solved.trap.map(|trap| Trap {
            length: trap.trace.length,
            lost: trap.lost,
        }),
    })
}

// "20 sets all scratch to 0, 21 leaves it as under a verdict."
pub fn expect(valid: bool, solved: &Solved, lengths: Lengths) -> Expected {
    let answer = answer(valid, solved, lengths);
    Expected {
        answer,
        used: match answer {
            Err(17 | 20) => 0,
            _ => solved.count,
        },
        cleared: answer != Err(17),
    }
}
