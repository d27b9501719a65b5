// The step rules: a row's phase, and what one letter does to it. specs/Phase.antt and
// specs/Step.antt say what is right, specs/Events.antt what happens at it.
#![tactic(auto)]

ghost use Rattle.std.specs.Prelude.{false, ◌≡◌};
ghost use Rattle.step.specs.declared.Phase.TheVariants.{Waiting, Broken};
ghost use Rattle.step.specs.Step.{action_check, delay_check, trigger_check};
ghost use Rattle.step.specs.Events.{events_of, no_events, only_aborted, only_completed};
ghost use Rattle.step.specs.Events.{with_realised, with_acting, stepped_to, stepped};
ghost use Rattle.step.specs.Events.{action_events, delay_events, trigger_events};
ghost use Rattle.step.specs.Inner.Check.{check_of};

use table::{AC, AEE, ASE, Row, TC, TEE, TSE};

// A row is waiting, or in trigger, delay or action with its elapsed ticks, or broken.
#[derive(Clone, Copy, Debug, PartialEq, Eq)]
pub enum Phase {
    Waiting,
    Trigger(u8),
    Delay(u8),
    Action(u8),
    Broken,
}

// What can happen to a row at a tick: its trigger starts, is realised or is aborted; its action
// starts (`acting`) or is completed; the row becomes broken.
#[derive(Clone, Copy, Debug, Default, PartialEq, Eq)]
pub struct Events {
    pub started: bool,
    pub realised: bool,
    pub aborted: bool,
    pub acting: bool,
    pub completed: bool,
    pub broken: bool,
}

// What one letter does to a row.
#[derive(Clone, Copy, Debug, PartialEq, Eq)]
pub struct Stepped {
    pub phase: Phase,
    pub events: Events,
}

// How the check of a phase ends: the phase is done, continues with so many elapsed ticks, or fails.
#[derive(Clone, Copy, Debug, PartialEq, Eq)]
pub enum Check {
    Done,
    Continue(u8),
    Fail,
}

// The check of a phase with t elapsed ticks: `end` and `hold` say whether its two conditions hold
// at the letter.
fn check_of(end: bool, hold: bool, least: u8, most: u8, t: u8) -> Check
    ensures { result ≡ check_of end hold least most t }
{
    if end && least <= t {
        Check::Done
    } else if hold && t < most {
        Check::Continue(t + 1)
    } else {
        Check::Fail
    }
}

// Nothing happens.
pub fn no_events() -> Events
    ensures { result ≡ no_events }
{
    Events::default()
}

// Nothing happens but that the row is in a phase then.
fn goes_on(phase: Phase) -> Stepped
    ensures { result ≡ stepped_to phase no_events }
{
    Stepped {
        phase,
        events: no_events(),
    }
}

// The trigger is aborted; the action is completed; the row is broken, since this letter or before.
fn aborts() -> Stepped
    ensures { result ≡ stepped_to Waiting only_aborted }
{
    let mut lapsed = goes_on(Phase::Waiting);
    lapsed.events.aborted = true;
    lapsed
}

fn completes() -> Stepped
    ensures { result ≡ stepped_to Waiting only_completed }
{
    let mut stepped = goes_on(Phase::Waiting);
    stepped.events.completed = true;
    stepped
}

fn breaks(now: bool) -> Stepped
    ensures { result ≡ stepped_to Broken (events_of false false false false false now) }
{
    let mut stepped = goes_on(Phase::Broken);
    stepped.events.broken = now;
    stepped
}

// Kept: row and letter apart, here and below: so does each definition of specs/Step.antt take them.
#[tactic(auto, unfolding(crate::specs::Step::action_check, crate::specs::Events::action_events))]
fn action_check(row: Row, letter: u8, a: u8) -> Stepped
    ensures { result ≡ stepped_to (action_check row letter a) (action_events row letter a) }
{
    let end = letters::contains(row.sets[AEE], letter);
    let hold = letters::contains(row.sets[AC], letter);
    match check_of(end, hold, row.amin, row.amax, a) {
        Check::Done => completes(),
        Check::Continue(n) => goes_on(Phase::Action(n)),
        Check::Fail => breaks(true),
    }
}

// The action check of an action that starts.
fn action_start(row: Row, letter: u8) -> Stepped
    ensures { result
        ≡ stepped_to (action_check row letter 0) (with_acting (action_events row letter 0)) }
{
    let mut stepped = action_check(row, letter, 0);
    stepped.events.acting = true;
    stepped
}

#[tactic(auto, unfolding(crate::specs::Step::delay_check, crate::specs::Events::delay_events))]
fn delay_check(row: Row, letter: u8, d: u8) -> Stepped
    ensures { result ≡ stepped_to (delay_check row letter d) (delay_events row letter d) }
{
    let end = letters::contains(row.sets[ASE], letter);
    match check_of(end, true, row.lmin, row.lmax, d) {
        Check::Done => action_start(row, letter),
        Check::Continue(n) => goes_on(Phase::Delay(n)),
        Check::Fail => breaks(true),
    }
}

// The delay check after a trigger that is realised.
fn delay_start(row: Row, letter: u8) -> Stepped
    ensures { result
        ≡ stepped_to (delay_check row letter 0) (with_realised (delay_events row letter 0)) }
{
    let mut stepped = delay_check(row, letter, 0);
    stepped.events.realised = true;
    stepped
}

// The trigger check; `lapsed` is what a trigger that is aborted makes of the letter.
#[tactic(auto, unfolding(crate::specs::Step::trigger_check, crate::specs::Events::trigger_events))]
fn trigger_check(row: Row, letter: u8, t: u8, lapsed: Stepped) -> Stepped
    ensures { result ≡ stepped_to (trigger_check row letter t lapsed.phase)
        (trigger_events row letter t lapsed.events) }
{
    let end = letters::contains(row.sets[TEE], letter);
    let hold = letters::contains(row.sets[TC], letter);
    match check_of(end, hold, row.tmin, row.tmax, t) {
        Check::Done => delay_start(row, letter),
        Check::Continue(n) => goes_on(Phase::Trigger(n)),
        Check::Fail => lapsed,
    }
}

// What one letter does to a row that waits: its trigger starts if TSE holds. If that is aborted at
// once, the row waits on.
#[tactic(auto, unfolding(crate::specs::Step::step_row, crate::specs::Step::start_check, crate::specs::Events::row_events, crate::specs::Events::start_events))]
fn start_check(row: Row, letter: u8) -> Stepped
    ensures { result ≡ stepped row letter Waiting }
{
    if !letters::contains(row.sets[TSE], letter) {
        return goes_on(Phase::Waiting);
    }
    let mut stepped = trigger_check(row, letter, 0, aborts());
    stepped.events.started = true;
    stepped
}

// What one letter does to a row in a phase, for any row, letter and phase. To a trigger that it
// aborts it does what it does to a row that waits.
#[tactic(auto, unfolding(crate::specs::Step::step_row, crate::specs::Events::row_events))]
pub fn step_row(row: Row, letter: u8, phase: Phase) -> Stepped
    ensures { result ≡ stepped row letter phase }
{
    match phase {
        Phase::Waiting => start_check(row, letter),
        Phase::Trigger(t) => {
            let mut again = start_check(row, letter);
            again.events.aborted = true;
            trigger_check(row, letter, t, again)
        }
        Phase::Delay(d) => delay_check(row, letter, d),
        Phase::Action(a) => action_check(row, letter, a),
        Phase::Broken => breaks(false),
    }
}
