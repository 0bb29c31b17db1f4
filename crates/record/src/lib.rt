// The record of a board (module 14; document 02, F-8): its clue section, its entry section and its removed section, what the fresh masks of
// clues and entries have and the board lacks; and records moved from the old form, which has no entry section, and back.
#![tactic(auto)]

ghost use Rattle.std.specs.Prelude.{◌≡◌, length};
ghost use Rattle.stops.specs.Answer.{answer_of, map};
ghost use Rattle.board.specs.Boards.{board_of};
ghost use Rattle.text.specs.Texts.{written};
ghost use Rattle.record.specs.declared.forms.Form.TheVariants.{New, Old};
ghost use Rattle.record.specs.Moves.{move_of, move_written, unentered};
ghost use Rattle.record.specs.Records.{read_entered, read_entry_section, read_in, read_of, read_removed, record_of, write_of};
ghost use Rattle.record.specs.Sections.{no_sets, with_sets};

use board::clues::givens_of;
use board::fresh::fresh_masks;
use board::{Board, check, count_clues, entries};
use forms::{Form, write_checked};
use sections::{Section, read_section};
use stops::Stop;

mod forms;
mod sections;
mod sets;

// The record of a board in the first lent bytes: stops 3, 8 and 9 of the board, then stop 6 with the lent length.
pub fn write_record(board: &Board, out: &mut [u8]) -> Result<usize, Stop>
    ensures { (answer_of result ≡ write_of (board_of board.now) (length out.old)) × (out.new ≡ written (write_of (board_of board.now) (length out.old)) (record_of (board_of board.now)) out.old) }
{
    check(&board.clues, &board.entries, &board.masks)?;
    write_checked(Form::New, board, out)
}

// The board of these clues and entries, from the removed section on.
fn read_removed(
    clues: [i32; 81],
    entered: [i32; 81],
    bytes: &[u8],
    start: usize,
) -> Result<Board, Stop>
    ensures { map board_of (answer_of result) ≡ read_removed clues entered bytes.now start }
{
    let givens = entries::givens_of(&clues, &entered);
    let fresh = fresh_masks(&givens);
    let free = sets::open_sets(&givens, &fresh);
    let mut removed = [0u16; 81];
    let next = read_section(Section::Removed, &free, bytes, start, &mut removed)?;
    if next < bytes.len() {
        return Err(Stop::RecordBytes(next as i64));
    }
    Ok(Board {
        clues,
        entries: entered,
        masks: sets::lacking_sets(&fresh, &removed),
    })
}

// The entry section, where the form has one, whose candidates are added to the lent sets; a cell without a clue may have any.
fn entry_section(
    form: Form,
    clues: &[i32; 81],
    bytes: &[u8],
    start: usize,
    sets: &mut [u16; 81],
) -> Result<usize, Stop>
    requires { sets.old ≡ no_sets }
    ensures { map (with_sets sets.new) (answer_of result) ≡ read_entry_section form clues.now bytes.now start }
{
    match form {
        Form::Old => Ok(start),
        Form::New => {
            let free = sets::open_sets(&givens_of(clues), &[511; 81]);
            read_section(Section::Digits, &free, bytes, start, sets)
        }
    }
}

// The board of these clues, from the entry section on.
fn read_entered(form: Form, clues: [i32; 81], bytes: &[u8], start: usize) -> Result<Board, Stop>
    ensures { map board_of (answer_of result) ≡ read_entered form clues bytes.now start }
{
    let mut entered = [0u16; 81];
    let next = entry_section(form, &clues, bytes, start, &mut entered)?;
    let digits = sets::digits_in(&entered);
    read_removed(clues, sets::clues_from(&digits), bytes, next)
}

fn read_in(form: Form, bytes: &[u8]) -> Result<Board, Stop>
    ensures { map board_of (answer_of result) ≡ read_in form bytes.now }
{
    let mut printed = [0u16; 81];
    let next = read_section(Section::Digits, &[511; 81], bytes, 0, &mut printed)?;
    let digits = sets::digits_in(&printed);
    read_entered(form, sets::clues_from(&digits), bytes, next)
}

// The board of a record, checked front to back: stop 7 with the record's length where bytes are missing, and with the offset of the first that is
// left over; stops 8 and 9 with the offset of the entry.
pub fn read_record(bytes: &[u8]) -> Result<Board, Stop>
    ensures { map board_of (answer_of result) ≡ read_of bytes.now }
{
    read_in(Form::New, bytes)
}

// Stop 14 with the offset of the entry count, behind the clue section.
fn check_unentered(board: &Board) -> Result<(), Stop>
    ensures { answer_of result ≡ unentered (board_of board.now) }
{
    if count_clues(&board.entries) == 0 {
        return Ok(());
    }
    Err(Stop::RecordEntries((1 + 2 * count_clues(&board.clues)) as i64))
}

// An old record in the new form, with an entry count of 0: its stops 7, 8 and 9, then stop 6 with the lent length.
pub fn move_record(bytes: &[u8], out: &mut [u8]) -> Result<usize, Stop>
    ensures { (answer_of result ≡ move_of Old bytes.now (length out.old)) × (out.new ≡ move_written Old bytes.now out.old) }
{
    let board = read_in(Form::Old, bytes)?;
    write_checked(Form::New, &board, out)
}

// A new record in the old form: its stops 7, 8 and 9, then stop 14 where it has entries, then stop 6 with the lent length.
pub fn move_back(bytes: &[u8], out: &mut [u8]) -> Result<usize, Stop>
    ensures { (answer_of result ≡ move_of New bytes.now (length out.old)) × (out.new ≡ move_written New bytes.now out.old) }
{
    let board = read_in(Form::New, bytes)?;
    check_unentered(&board)?;
    write_checked(Form::Old, &board, out)
}
