// The board calls by their step numbers, and lists of them run from the fresh board of clues and entries.
#![tactic(auto)]

ghost use Rattle.std.specs.Prelude.{◌≡◌, []};
ghost use Rattle.board.specs.Boards.{board_of};
ghost use Rattle.techniques.specs.Reports.{reports_of};
ghost use Rattle.calls.specs.Replays.{Replays};
ghost use Rattle.calls.specs.StepNumbers.{HandsBack, step_answer};
ghost use Rattle.calls.specs.declared.ReplayError.TheVariants as replay;
ghost use Rattle.calls.specs.declared.StepError.TheVariants as step;

use board::Board;
use kinds::{Step, step_of};
use quiet::{Told, quiet_handed};
use stops::Stop;
use techniques::singles::Reports;
use techniques::{Reported, report};

pub mod kinds;
mod lists;
pub mod quiet;

// Why a step is not done: its number is no step's, or its call refuses the board.
#[derive(Clone, Copy)]
pub enum StepError {
    NoStep,
    Refused(Stop),
}

impl From<Stop> for StepError {
    ghost from_gives = { λ stop error. error ≡ step.Refused stop };

    fn from(stop: Stop) -> StepError {
        StepError::Refused(stop)
    }
}

// All that a step hands back beside its board. What its call does not speak of is false, empty or 0.
#[derive(Clone, Copy)]
pub struct Stepped {
    pub made: bool,
    pub reports: Reports,
    pub sweeps: usize,
    pub removed: usize,
}

// Of a step that reports.
fn of_reported(found: Reported) -> Stepped
    ensures { result ≡ record { made = found.made; reports = found.reports; sweeps = 0; removed = 0 } }
{
    Stepped {
        made: found.made,
        reports: found.reports,
        sweeps: 0,
        removed: 0,
    }
}

// Of a step that reports nothing.
fn of_told(told: Told) -> Stepped
    ensures { result ≡ record { made = told.made; reports = reports_of []; sweeps = told.sweeps; removed = told.removed } }
{
    Stepped {
        made: told.made,
        reports: Reports::new(),
        sweeps: told.sweeps,
        removed: told.removed,
    }
}

// One board call by its step number; beside a refusal the board is as it was.
pub fn step(number: u8, board: &mut Board) -> Result<Stepped, StepError>
    ensures { HandsBack (board_of board.old) (step_answer number (board_of board.old)) result (board_of board.new) }
{
    let Some(step) = step_of(number) else {
        return Err(StepError::NoStep);
    };
    match step {
        Step::Search(search) => Ok(of_reported(report(search, board)?)),
        Step::Quiet(quiet) => Ok(of_told(quiet_handed(
            quiet,
            &board.clues,
            &board.entries,
            &mut board.masks,
        )?)),
    }
}

// Why a list is not run: a byte, by its index, is no step number, or a clue or an entry is refused.
#[derive(Clone, Copy)]
pub enum ReplayError {
    NoStep(usize),
    Refused(Stop),
}

impl From<Stop> for ReplayError {
    ghost from_gives = { λ stop error. error ≡ replay.Refused stop };

    fn from(stop: Stop) -> ReplayError {
        ReplayError::Refused(stop)
    }
}

// The board after the steps of a list, one after the other, from the fresh board of clues and entries. Nothing is run where a clue, an entry or a byte is refused.
#[tactic(auto, unfolding(crate::specs::Replays::replay_of))]
pub fn replay(clues: [i32; 81], entries: [i32; 81], steps: &[u8]) -> Result<Board, ReplayError>
    ensures { Replays clues entries steps.now result }
{
    let board = Board::with_entries(clues, entries)?;
    match lists::first_no_step(steps) {
        Some(index) => Err(ReplayError::NoStep(index)),
        None => Ok(lists::run(steps, board)),
    }
}
