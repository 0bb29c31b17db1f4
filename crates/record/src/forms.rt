// A board's record in either form: the old one has no entry section. Boards are written in the new one; the old one is for moves.
ghost use Rattle.std.specs.Prelude.{◌≡◌, ◌+◌, ◌≤◌, length, take};
ghost use Rattle.stops.specs.Answer.{answer_of};
ghost use Rattle.board.specs.Boards.{board_of};
ghost use Rattle.text.specs.Texts.{written};
ghost use Rattle.record.specs.Records.{bytes_in, entry_section, write_in};
ghost use Rattle.record.specs.Sections.{stored};

use crate::sections::{Section, put_section};
use crate::sets;
use board::entries::givens_of;
use board::fresh::fresh_masks;
use board::{Board, clues};
use stops::Stop;

#[derive(Clone, Copy)]
pub enum Form {
    Old,
    New,
}

// The entry section, from `start` on, where the form has one; what is returned is the offset after it.
fn put_entered(form: Form, sets: &[u16; 81], bytes: &mut [u8; 1786], start: usize) -> usize
    requires { start + length (entry_section form sets.now) ≤ 1786 }
    ensures { (bytes.new ≡ stored bytes.old start (entry_section form sets.now)) × (result ≡ start + length (entry_section form sets.now)) }
{
    match form {
        Form::Old => start,
        Form::New => put_section(Section::Digits, sets, bytes, start),
    }
}

// The record from the first byte on; what is returned is its length.
fn put_record(form: Form, board: &Board, bytes: &mut [u8; 1786]) -> usize
    ensures { (bytes.new ≡ stored bytes.old 0 (bytes_in form (board_of board.now))) × (result ≡ length (bytes_in form (board_of board.now))) × (result ≤ 1786) }
{
    let fresh = fresh_masks(&givens_of(&board.clues, &board.entries));
    let printed = sets::digit_sets(&clues::givens_of(&board.clues));
    let entered = sets::digit_sets(&clues::givens_of(&board.entries));
    let removed = sets::lacking_sets(&fresh, &board.masks);
    let second = put_section(Section::Digits, &printed, bytes, 0);
    let third = put_entered(form, &entered, bytes, second);
    put_section(Section::Removed, &removed, bytes, third)
}

// The first `count` bytes in the lent ones, which stay as they are where they are too few.
fn copy_out(bytes: &[u8; 1786], count: usize, out: &mut [u8]) -> Result<usize, Stop>
    requires { count ≤ 1786 }
    ensures { (answer_of result ≡ write_in count (length out.old)) × (out.new ≡ written (write_in count (length out.old)) (take count bytes.now) out.old) }
{
    if out.len() < count {
        return Err(Stop::TooFewBytes(out.len() as i64));
    }
    out[..count].copy_from_slice(&bytes[..count]);
    Ok(count)
}

// The record of a checked board in the first lent bytes: stop 6 with the lent length.
pub fn write_checked(form: Form, board: &Board, out: &mut [u8]) -> Result<usize, Stop>
    ensures { (answer_of result ≡ write_in (length (bytes_in form (board_of board.now))) (length out.old)) × (out.new ≡ written (write_in (length (bytes_in form (board_of board.now))) (length out.old)) (bytes_in form (board_of board.now)) out.old) }
{
    // Room for a clue and an entry in each cell and for 729 removals, with the counts.
    let mut bytes = [0u8; 1786];
    let count = put_record(form, board, &mut bytes);
    copy_out(&bytes, count, out)
}
