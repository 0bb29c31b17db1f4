// Entries: digits that a player pencilled into open cells, 0 where there is none (document 02, F-6). Below the check clues and entries are one clue
// grid; entering and rubbing out work the masks out afresh.
ghost use Rattle.std.specs.Prelude.{◌≡◌, not, ◌<◌, pos, get_or, set};
ghost use Rattle.stops.specs.Answer.{answer_of, passing, stop_at};
ghost use Rattle.stops.specs.declared.Stop.TheVariants.{BadEntry};
ghost use Rattle.steps.specs.Boards.{givens_of, joint_of, no_digit, together};
ghost use Rattle.steps.specs.Calls.{bad_entry, first_bad_entry, opened_with};
ghost use Rattle.steps.specs.Entries.{enter, entries_after, rub_out};
ghost use Rattle.board.specs.Boards.{board_of};
ghost use Rattle.board.specs.Entering.{Enters};
ghost use Rattle.board.specs.code.Checks.{is_found};

use crate::clues::{given_digit, is_bad};
use crate::fresh::fresh_masks;
use crate::{Board, check};
use stops::Stop;

// The number that counts in a cell: its clue, or its entry where it has none.
fn joint(clue: i32, entry: i32) -> i32
    ensures { result ≡ joint_of clue entry }
{
    if given_digit(clue) == 0 {
        return entry;
    }
    clue
}

// The givens of clues and entries together.
pub fn givens_of(clues: &[i32; 81], entries: &[i32; 81]) -> [u8; 81]
    ensures { result ≡ givens_of (together clues.now entries.now) }
{
    let mut givens = [0u8; 81];
    for cell in 0..81 {
        givens[cell] = given_digit(joint(clues[cell], entries[cell]));
    }
    givens
}

// Whether an entry is outside 0 to 9, or stands on a clue.
fn is_bad_entry(clue: i32, entry: i32) -> bool
    ensures { result ≡ bad_entry clue entry }
{
    if is_bad(entry) {
        return true;
    }
    if given_digit(entry) == 0 {
        return false;
    }
    given_digit(clue) != 0
}

fn any_bad_entry(clues: &[i32; 81], entries: &[i32; 81]) -> bool
    ensures { result ≡ is_found (first_bad_entry clues.now entries.now) }
{
    let mut any = false;
    for cell in 0..81 {
        any = any | is_bad_entry(clues[cell], entries[cell]);
    }
    any
}

// Stop 8 with its first cell.
pub fn check_entries(clues: &[i32; 81], entries: &[i32; 81]) -> Result<(), Stop>
    ensures { answer_of result ≡ stop_at BadEntry (first_bad_entry clues.now entries.now) }
{
    if !any_bad_entry(clues, entries) {
        return Ok(());
    }
    for cell in 0..81 {
        if is_bad_entry(clues[cell], entries[cell]) {
            return Err(Stop::BadEntry(cell as i64));
        }
    }
    Ok(())
}

// The board of clues and entries, worked out afresh. Nothing is asked of them.
pub fn fresh_board(clues: [i32; 81], entries: [i32; 81]) -> Board
    ensures { board_of result ≡ opened_with clues entries }
{
    let masks = fresh_masks(&givens_of(&clues, &entries));
    Board {
        clues,
        entries,
        masks,
    }
}

// Whether a digit stands in a cell.
fn has_digit(numbers: &[i32; 81], cell: u32) -> bool
    requires { cell < 81 }
    ensures { result ≡ not (no_digit (get_or numbers.now cell (pos 0))) }
{
    given_digit(numbers[cell as usize]) != 0
}

// Stops 5, 4, 12 and 13 of entering.
fn check_enter(clues: &[i32; 81], entries: &[i32; 81], cell: u32, digit: i32) -> Result<(), Stop>
    ensures { passing (answer_of result) (set entries.now cell digit) ≡ entries_after (enter cell digit) clues.now entries.now }
{
    if 80 < cell {
        return Err(Stop::NoCell(cell));
    }
    if given_digit(digit) == 0 {
        return Err(Stop::BadDigit(digit));
    }
    if has_digit(clues, cell) {
        return Err(Stop::ClueCell(cell));
    }
    if has_digit(entries, cell) {
        return Err(Stop::AlreadyEntered(cell));
    }
    Ok(())
}

// Stops 5, 12 and 13 of rubbing out.
fn check_rub_out(clues: &[i32; 81], entries: &[i32; 81], cell: u32) -> Result<(), Stop>
    ensures { passing (answer_of result) (set entries.now cell (pos 0)) ≡ entries_after (rub_out cell) clues.now entries.now }
{
    if 80 < cell {
        return Err(Stop::NoCell(cell));
    }
    if has_digit(clues, cell) {
        return Err(Stop::ClueCell(cell));
    }
    if !has_digit(entries, cell) {
        return Err(Stop::NotEntered(cell));
    }
    Ok(())
}

// The entries with another one in a cell; a number above 80 is no cell.
fn with_entry(mut entries: [i32; 81], cell: u32, entry: i32) -> [i32; 81]
    ensures { result ≡ set entries cell entry }
{
    if cell < 81 {
        entries[cell as usize] = entry;
    }
    entries
}

// A digit entered in an open cell: the board's stops, then 5, 4, 12 and 13. An entry that contradicts a clue or another entry is accepted.
pub fn enter(board: &mut Board, cell: u32, digit: i32) -> Result<(), Stop>
    ensures { Enters (enter cell digit) (board_of board.old) result (board_of board.new) }
{
    check(&board.clues, &board.entries, &board.masks)?;
    check_enter(&board.clues, &board.entries, cell, digit)?;
    *board = fresh_board(board.clues, with_entry(board.entries, cell, digit));
    Ok(())
}

// An entry rubbed out: the board's stops, then 5, 12 and 13.
pub fn rub_out(board: &mut Board, cell: u32) -> Result<(), Stop>
    ensures { Enters (rub_out cell) (board_of board.old) result (board_of board.new) }
{
    check(&board.clues, &board.entries, &board.masks)?;
    check_rub_out(&board.clues, &board.entries, cell)?;
    *board = fresh_board(board.clues, with_entry(board.entries, cell, 0));
    Ok(())
}
