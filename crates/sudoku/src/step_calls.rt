// The board calls by their step numbers, one and lists of them: the four numbers, the masks, and the reports as bytes.
ghost use Rattle.std.specs.Prelude.{◌≡◌, pos, length};
ghost use Rattle.std.specs.Int.{w64};
ghost use Rattle.std.proofs.Common.{SFits};
ghost use Rattle.std.proofs.Math.Option.{some};
ghost use Rattle.stops.specs.Answer.{map, value_or};
ghost use Rattle.steps.specs.Calls as steps;
ghost use Rattle.board.specs.Boards.{handed};
ghost use Rattle.techniques.specs.code.Searches.{search_call};
ghost use Rattle.calls.specs.Replays.{replaying};
ghost use Rattle.calls.specs.code.QuietSteps.{quiet_call};
ghost use Rattle.sudoku.specs.Steps.{answer_code, outcome_bytes, ran_code, ran_masks, report_bytes, step_code, step_masks, step_reports, used, values_code};
ghost use Rattle.sudoku.specs.code.Parts.{RunFits};

use crate::codes;
use board::Board;
use calls::ReplayError;
use calls::kinds::{QuietStep, Step, step_of};
use calls::quiet::quiet_handed;
use techniques::singles::Reports;
use techniques::{Search, report_handed};

// The number of settling, whose values are what it counts.
const SETTLING: u8 = 12;

fn of_values(number: u8, made: bool, reports: usize, sweeps: usize, removed: usize) -> [i64; 4]
    requires { SFits w64 (pos reports) × SFits w64 (pos sweeps) × SFits w64 (pos removed) }
    ensures { result ≡ values_code number made reports sweeps removed }
{
    if number == SETTLING {
        return [0, 0, sweeps as i64, removed as i64];
    }
    [0, 0, codes::of_test(made), reports as i64]
}

// The number of a list that holds a byte that is no step number; it is no stop of the paper.
const NO_STEP: i64 = 20;

// A list that was run, or why it was not.
pub fn put_run(replayed: Result<Board, ReplayError>, lent: &mut [u16; 81], answer: &mut [i64; 4])
    requires { RunFits (replaying replayed) }
    ensures { (answer.new ≡ ran_code (replaying replayed)) × (lent.new ≡ ran_masks (replaying replayed) lent.old) }
{
    match replayed {
        Err(ReplayError::Refused(stop)) => *answer = codes::of_stop(stop, 0),
        Err(ReplayError::NoStep(index)) => *answer = [NO_STEP, index as i64, 0, 0],
        Ok(board) => {
            let after = board.masks;
            *answer = codes::of_given(0, 0);
            *lent = after;
        }
    }
}

fn used(count: usize) -> usize
    ensures { result ≡ used count }
{
    if count < 324 {
        return count;
    }
    324
}

// Two bytes a report, and zeros after the last.
fn put_bytes(reports: &Reports, bytes: &mut [u8; 648])
    ensures { bytes.new ≡ report_bytes reports.now }
{
    let count = used(reports.count);
    *bytes = [0u8; 648];
    for report in 0..count {
        bytes[2 * report] = reports.cells[report];
        bytes[2 * report + 1] = reports.digits[report];
    }
}

// Lent arrays are as long as their types say. A proof knows it of values alone; the compiler makes no copy for it.
fn whole(clues: [i32; 81], entries: [i32; 81], masks: [u16; 81])
    ensures { (length clues ≡ 81) × (length entries ≡ 81) × (length masks ≡ 81) }
{}

// A step that reports nothing, on arrays: zeros in place of reports.
fn quiet(
    number: u8,
    step: QuietStep,
    clues: &[i32; 81],
    entries: &[i32; 81],
    masks: &mut [u16; 81],
    reports: &mut [u8; 648],
    answer: &mut [i64; 4],
)
    ensures { (answer.new ≡ answer_code number (some (steps.answer (quiet_call step) (handed clues.now entries.now masks.old)))) × (masks.new ≡ (steps.left (handed clues.now entries.now masks.old) (steps.answer (quiet_call step) (handed clues.now entries.now masks.old))).masks) × (reports.new ≡ value_or reports.old (map outcome_bytes (steps.answer (quiet_call step) (handed clues.now entries.now masks.old)))) }
{
    whole(*clues, *entries, *masks);
    match quiet_handed(step, clues, entries, masks) {
        Err(stop) => *answer = codes::of_stop(stop, 0),
        Ok(told) => {
            *answer = of_values(number, told.made, 0, told.sweeps, told.removed);
            *reports = [0u8; 648];
        }
    }
}

// A step that reports, on arrays.
fn reporting(
    number: u8,
    search: Search,
    clues: &[i32; 81],
    entries: &[i32; 81],
    masks: &mut [u16; 81],
    reports: &mut [u8; 648],
    answer: &mut [i64; 4],
)
    ensures { (answer.new ≡ answer_code number (some (steps.answer (search_call search) (handed clues.now entries.now masks.old)))) × (masks.new ≡ (steps.left (handed clues.now entries.now masks.old) (steps.answer (search_call search) (handed clues.now entries.now masks.old))).masks) × (reports.new ≡ value_or reports.old (map outcome_bytes (steps.answer (search_call search) (handed clues.now entries.now masks.old)))) }
{
    let mut found = Reports::new();
    match report_handed(search, clues, entries, masks, &mut found) {
        Err(stop) => *answer = codes::of_stop(stop, 0),
        Ok(made) => {
            *answer = of_values(number, made, found.count, 0, 0);
            put_bytes(&found, reports);
        }
    }
}

// A board call on arrays.
pub fn step(
    number: u8,
    clues: &[i32; 81],
    entries: &[i32; 81],
    masks: &mut [u16; 81],
    reports: &mut [u8; 648],
    answer: &mut [i64; 4],
)
    ensures { (answer.new ≡ step_code number (handed clues.now entries.now masks.old)) × (masks.new ≡ step_masks number (handed clues.now entries.now masks.old)) × (reports.new ≡ step_reports number (handed clues.now entries.now masks.old) reports.old) }
{
    let Some(step) = step_of(number) else {
        *answer = codes::of_unknown(number);
        return;
    };
    match step {
        Step::Search(search) => {
            reporting(number, search, clues, entries, masks, reports, answer)
        }
        Step::Quiet(step) => quiet(number, step, clues, entries, masks, reports, answer),
    }
}
