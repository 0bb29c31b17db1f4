// The steps that report nothing, over a lent board: no board and no reports are copied.
ghost use Rattle.std.specs.Prelude.{◌≡◌};
ghost use Rattle.std.proofs.Math.Option as option;
ghost use Rattle.stops.specs.Answer.{answer_of, map};
ghost use Rattle.steps.specs.Calls.{answer, left, settling_call, update_candidates};
ghost use Rattle.board.specs.Boards.{handed};
ghost use Rattle.eliminations.specs.code.Calls.{call_of};
ghost use Rattle.calls.specs.StepNumbers.{step_left, stepping};
ghost use Rattle.calls.specs.code.QuietSteps.{quiet_answer, quiet_call, told_of};

use crate::StepError;
use crate::kinds::{QuietStep, Step, step_of};
use board::Board;
use eliminations::{Elimination, eliminate_handed};
use passes::settle_handed;
use stops::Stop;

// Whether a step made progress, and what it counts; what its call does not speak of is false or 0.
#[derive(Clone, Copy)]
pub struct Told {
    pub made: bool,
    pub sweeps: usize,
    pub removed: usize,
}

// A step that counts nothing.
fn uncounted(made: bool) -> Told
    ensures { result ≡ record { made = made; sweeps = 0; removed = 0 } }
{
    Told {
        made,
        sweeps: 0,
        removed: 0,
    }
}

// `update_candidates` has no flag.
fn update(clues: &[i32; 81], entries: &[i32; 81], masks: &mut [u16; 81]) -> Result<Told, Stop>
    ensures told { answer_of result ≡ map told_of (answer update_candidates (handed clues.now entries.now masks.old)) }
    ensures masks_after { masks.new ≡ (left (handed clues.now entries.now masks.old) (answer update_candidates (handed clues.now entries.now masks.old))).masks }
{
    let mut board = Board {
        clues: *clues,
        entries: *entries,
        masks: *masks,
    };
    board.update_candidates()?;
    *masks = board.masks;
    Ok(uncounted(false))
}

fn eliminate(
    elimination: Elimination,
    clues: &[i32; 81],
    entries: &[i32; 81],
    masks: &mut [u16; 81],
) -> Result<Told, Stop>
    ensures told { answer_of result ≡ map told_of (answer (call_of elimination) (handed clues.now entries.now masks.old)) }
    ensures masks_after { masks.new ≡ (left (handed clues.now entries.now masks.old) (answer (call_of elimination) (handed clues.now entries.now masks.old))).masks }
{
    let made = eliminate_handed(elimination, clues, entries, masks)?;
    Ok(uncounted(made))
}

// Settling has no flag, and counts. Nobody asks for its own steps, nor for what each pass removed.
fn settle(clues: &[i32; 81], entries: &[i32; 81], masks: &mut [u16; 81]) -> Result<Told, Stop>
    ensures told { answer_of result ≡ map told_of (answer settling_call (handed clues.now entries.now masks.old)) }
    ensures masks_after { masks.new ≡ (left (handed clues.now entries.now masks.old) (answer settling_call (handed clues.now entries.now masks.old))).masks }
{
    let mut none: [u8; 0] = [];
    let mut by_pass = [0usize; 6];
    let counts = settle_handed(clues, entries, masks, &mut none, &mut by_pass)?;
    Ok(Told {
        made: false,
        sweeps: counts.sweeps,
        removed: counts.removed,
    })
}

// A step that reports nothing; beside a refusal the masks stay as they were.
pub fn quiet_handed(
    step: QuietStep,
    clues: &[i32; 81],
    entries: &[i32; 81],
    masks: &mut [u16; 81],
) -> Result<Told, Stop>
    ensures told { answer_of result ≡ map told_of (answer (quiet_call step) (handed clues.now entries.now masks.old)) }
    ensures masks_after { masks.new ≡ (left (handed clues.now entries.now masks.old) (answer (quiet_call step) (handed clues.now entries.now masks.old))).masks }
{
    match step {
        QuietStep::Update => update(clues, entries, masks),
        QuietStep::Eliminate(elimination) => eliminate(elimination, clues, entries, masks),
        QuietStep::Settle => settle(clues, entries, masks),
    }
}

// The same by a number: a step that reports is none here. Beside an error the masks stay as they were.
pub fn quiet_step(
    number: u8,
    clues: &[i32; 81],
    entries: &[i32; 81],
    masks: &mut [u16; 81],
) -> Result<Told, StepError>
    ensures told { stepping result ≡ option.map (map told_of) (quiet_answer number (handed clues.now entries.now masks.old)) }
    ensures masks_after { masks.new ≡ (step_left (handed clues.now entries.now masks.old) (quiet_answer number (handed clues.now entries.now masks.old))).masks }
{
    match step_of(number) {
        Some(Step::Quiet(step)) => Ok(quiet_handed(step, clues, entries, masks)?),
        Some(Step::Search(_)) => Err(StepError::NoStep),
        None => Err(StepError::NoStep),
    }
}
