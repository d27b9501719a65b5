// A phase's code and the phase of a code, and number 18 of a row. Crate `step` has the phases; its
// specs/Phase.antt, Valid.antt and further/Codes.antt say what is right.
#![tactic(auto)]

ghost use Rattle.std.specs.Prelude.{◌≡◌};
ghost use Rattle.step.specs.Phase.{code_of};
ghost use Rattle.step.specs.Valid.{phase_valid, is_waiting};
ghost use Rattle.step.specs.Further.Codes.{phase_of};

use step::Phase;
use table::{MOST_TICKS, Row};

// The codes of delay and of action count on from these, and a broken row has the last one.
pub const DELAY_CODES: u8 = MOST_TICKS;

pub const ACTION_CODES: u8 = 2 * MOST_TICKS;

pub const BROKEN_CODE: u8 = 255;

// A phase's code. A phase that number 18 lets by has one of at most `BROKEN_CODE`.
// Kept: `code` and `phase_of`, not `From`: docs/CONFORMANCE.md and the theorems name them.
#[tactic(auto, unfolding(step::specs::Phase::code_of))]
pub fn code(phase: Phase) -> u16
    ensures { result ≡ code_of phase }
{
    match phase {
        Phase::Waiting => 0,
        Phase::Trigger(t) => u16::from(t),
        Phase::Delay(d) => u16::from(DELAY_CODES) + u16::from(d),
        Phase::Action(a) => u16::from(ACTION_CODES) + u16::from(a),
        Phase::Broken => u16::from(BROKEN_CODE),
    }
}

// The phase of a code. Some codes below `BROKEN_CODE` are of actions too long for any row.
#[tactic(auto, unfolding(step::specs::Further::Codes::phase_of))]
pub fn phase_of(code: u8) -> Phase
    ensures { result ≡ phase_of code }
{
    match code {
        0 => Phase::Waiting,
        1..=DELAY_CODES => Phase::Trigger(code),
        ..=ACTION_CODES => Phase::Delay(code - DELAY_CODES),
        ..BROKEN_CODE => Phase::Action(code - ACTION_CODES),
        BROKEN_CODE => Phase::Broken,
    }
}

// Whether number 18 lets a row's phase by.
#[tactic(auto, unfolding(step::specs::Valid::phase_valid))]
pub fn phase_valid(row: Row, phase: Phase) -> bool
    ensures { result ≡ phase_valid row phase }
{
    match phase {
        Phase::Trigger(t) => (1..=row.tmax).contains(&t),
        Phase::Delay(d) => (1..=row.lmax).contains(&d),
        Phase::Action(a) => (1..=row.amax).contains(&a),
        Phase::Waiting | Phase::Broken => true,
    }
}

// Whether a phase is waiting.
#[tactic(auto, unfolding(step::specs::Valid::is_waiting))]
pub fn is_waiting(phase: Phase) -> bool
    ensures { result ≡ is_waiting phase }
{
    matches!(phase, Phase::Waiting)
}
