// What a board says of itself, once it is checked, as four numbers.
ghost use Rattle.std.specs.Prelude.{◌≡◌, pos};
ghost use Rattle.stops.specs.Answer.{answer_of, map};
ghost use Rattle.board.specs.Boards.{board_of};
ghost use Rattle.sudoku.specs.Boards.{asked, verdict_number};
ghost use Rattle.sudoku.specs.Codes.{coded};

use crate::codes;
use board::{Board, Verdict};
use stops::Stop;

// A verdict by the number that callers in C have.
fn verdict_number(verdict: Verdict) -> i64
    ensures { result ≡ verdict_number verdict }
{
    match verdict {
        Verdict::Dead => 0,
        Verdict::Finished => 1,
        Verdict::Open => 2,
    }
}

fn of_verdict(verdict: Result<Verdict, Stop>) -> [i64; 4]
    ensures { result ≡ coded (map verdict_number (answer_of verdict)) 0 }
{
    match verdict {
        Err(stop) => codes::of_stop(stop, 0),
        Ok(found) => codes::of_given(verdict_number(found), 0),
    }
}

fn of_cell_mask(found: Result<u16, Stop>) -> [i64; 4]
    ensures { result ≡ coded (map pos (answer_of found)) 0 }
{
    match found {
        Err(stop) => codes::of_stop(stop, 0),
        Ok(mask) => codes::of_given(i64::from(mask), 0),
    }
}

// A question by its number, which callers in C have.
pub fn ask(question: u8, board: &Board, cell: u32) -> [i64; 4]
    ensures { result ≡ asked question (board_of board.now) cell }
{
    match question {
        0 => codes::of_counted(board.clue_count()),
        1 => of_verdict(board.verdict()),
        2 => of_cell_mask(board.cell_mask(cell)),
        _ => codes::of_unknown(question),
    }
}
