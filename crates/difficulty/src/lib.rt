// The difficulty figure (document 02, F-14): points for what settling the fresh board removes, divided by the open cells without entries.
#![tactic(auto)]

ghost use Rattle.std.specs.Prelude.{◌≡◌, ◌≢◌, ◌≤◌};
ghost use Rattle.stops.specs.Answer.{answer_of, map};
ghost use Rattle.steps.specs.Boards.{Givens, fresh};
ghost use Rattle.steps.specs.Difficulty.{summed, pass_counts, points_of, open_cells, figure_of, difficulty_of};
ghost use Rattle.board.specs.Boards.{board_of};
ghost use Rattle.difficulty.specs.Ratings.{figure_in};
ghost use Rattle.difficulty.specs.code.Rates.{rating_by, rate_of};

use board::entries::givens_of;
use board::fresh::fresh_masks;
use board::{Board, check_given};
use passes::settle;
use stops::Stop;

// Points over cells: a whole quotient and the exact remainder.
#[derive(Clone, Copy)]
pub struct Figure {
    pub points: usize,
    // The open cells without an entry.
    pub cells: usize,
    pub quotient: usize,
    pub remainder: usize,
}

// How many cells are given no digit, by a clue or an entry.
fn open_cells(givens: &[u8; 81]) -> usize
    ensures { result ≡ open_cells givens.now }
{
    givens.iter().filter(|given| **given == 0).count()
}

// What each wide pass removes in settling, in the order of the passes.
fn pass_counts(givens: &[u8; 81], masks: [u16; 81]) -> [usize; 6]
    ensures { result ≡ pass_counts givens.now masks }
{
    let mut left = masks;
    let mut counts = [0usize; 6];
    settle(givens, &mut left, &mut [], &mut counts);
    counts
}

// The points of what Lone, Place, Pair, Pointing, Claiming and Cross removed.
fn points_of(counts: [usize; 6]) -> usize
    requires { summed counts ≤ 729 }
    ensures { result ≡ points_of counts }
{
    counts[0] + 2 * counts[1] + 4 * counts[2] + 3 * counts[3] + 3 * counts[4] + 6 * counts[5]
}

fn figure_of(points: usize, cells: usize) -> Figure
    requires { cells ≢ 0 }
    ensures { figure_in result ≡ figure_of points cells }
{
    Figure {
        points,
        cells,
        quotient: points / cells,
        remainder: points % cells,
    }
}

// The figure by what each pass removed, or stop 19. What settling a board counts is never more than its 729 candidates.
pub fn rating_of(givens: &[u8; 81], counts: [usize; 6]) -> Result<Figure, Stop>
    requires { summed counts ≤ 729 }
    ensures { map figure_in (answer_of result) ≡ rating_by givens.now counts }
{
    let cells = open_cells(givens);
    if cells == 0 {
        return Err(Stop::NoOpenCell);
    }
    Ok(figure_of(points_of(counts), cells))
}

// The figure by the fresh masks; stop 19, before any settling.
fn rate(givens: &[u8; 81], masks: [u16; 81]) -> Result<Figure, Stop>
    requires { Givens givens.now × (masks ≡ fresh givens.now) }
    ensures { map figure_in (answer_of result) ≡ rate_of givens.now }
{
    if open_cells(givens) == 0 {
        return Err(Stop::NoOpenCell);
    }
    rating_of(givens, pass_counts(givens, masks))
}

// How hard the puzzle of clues and entries is. The handed masks are checked and play no other part.
#[tactic(auto, unfolding(steps::specs::Difficulty::difficulty_of))]
pub fn difficulty(board: &Board) -> Result<Figure, Stop>
    ensures { map figure_in (answer_of result) ≡ difficulty_of (board_of board.now) }
{
    let givens = givens_of(&board.clues, &board.entries);
    check_given(&board.clues, &board.entries, &givens, &board.masks)?;
    rate(&givens, fresh_masks(&givens))
}
