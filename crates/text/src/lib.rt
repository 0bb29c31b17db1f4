// Grids as text (module 12): 81 bytes, `1` to `9`; `0` and `.` are open.
#![tactic(auto)]

ghost use Rattle.std.specs.Prelude.{◌≡◌, ◌<◌, ◌^◌, ◌≤◌, drop, get_or, length, ◌++◌};
ghost use Rattle.stops.specs.Answer.{answer_of, found_of, stop_at};
ghost use Rattle.stops.specs.declared.Stop.TheVariants.{OtherByte};
ghost use Rattle.board.specs.code.Checks.{is_found};
ghost use Rattle.text.specs.Texts.{byte_cell, is_other, byte_clue, first_other, clues_of, parse_of, clue_byte, text_of, write_of, written};

use board::clues;
use stops::Stop;

pub mod sheets;

// The digit of a byte that is a cell, 0 where it is open; none for any other byte.
fn text_byte(byte: u8) -> Option<u8>
    ensures { found_of result ≡ byte_cell byte }
{
    match byte {
        b'.' => Some(0),
        b'0'..=b'9' => Some(byte - b'0'),
        _ => None,
    }
}

fn is_other(byte: u8) -> bool
    ensures { result ≡ is_other byte }
{
    text_byte(byte).is_none()
}

fn byte_clue(byte: u8) -> i32
    ensures { result ≡ byte_clue byte }
{
    text_byte(byte).unwrap_or(0) as i32
}

// The byte at an index; 0 past the text.
pub fn byte_at(text: &[u8], index: usize) -> u8
    ensures { result ≡ get_or text.now index 0 }
{
    text.get(index).copied().unwrap_or(0)
}

// Whether any of 81 bytes is another one. It does not end at the first, so that the compiler tests several at once.
fn any_other(text: &[u8]) -> bool
    ensures { result ≡ is_found (first_other text.now) }
{
    let mut any = false;
    for index in 0..81 {
        any = any | is_other(byte_at(text, index));
    }
    any
}

// Stop 2 with the first other byte of 81.
fn check_bytes(text: &[u8]) -> Result<(), Stop>
    ensures { answer_of result ≡ stop_at OtherByte (first_other text.now) }
{
    if !any_other(text) {
        return Ok(());
    }
    for index in 0..81 {
        if is_other(byte_at(text, index)) {
            return Err(Stop::OtherByte(index as i64));
        }
    }
    Ok(())
}

// The clues of 81 bytes, 0 for a byte that is no cell.
pub fn clues_of(text: &[u8]) -> [i32; 81]
    ensures { result ≡ clues_of text.now }
{
    let mut clues = [0i32; 81];
    for index in 0..81 {
        clues[index] = byte_clue(byte_at(text, index));
    }
    clues
}

// The clues of a text: stop 1 with a length that is not 81, then stop 2 with the index of the first other byte.
#[tactic(auto, unfolding(crate::specs::Texts::parse_of))]
pub fn parse_string(text: &[u8]) -> Result<[i32; 81], Stop>
    ensures { answer_of result ≡ parse_of text.now }
{
    if text.len() != 81 {
        return Err(Stop::TextLength(text.len() as i64));
    }
    check_bytes(text)?;
    Ok(clues_of(text))
}

// The byte of a clue 0 to 9.
fn clue_byte(clue: i32) -> u8
    ensures { result ≡ clue_byte clue }
{
    let digit = clues::given_digit(clue);
    if digit == 0 {
        return b'.';
    }
    digit + b'0'
}

fn put_text(grid: &[i32; 81], out: &mut [u8])
    requires { 81 ≤ length out.old }
    ensures { out.new ≡ text_of grid.now ++ drop 81 out.old }
{
    for (cell, clue) in grid.iter().enumerate() {
        out[cell] = clue_byte(*clue);
    }
}

// What a writer of `needed` bytes answers: stop 6 with the length of the lent ones, then stop 3 with the cell.
fn writing(needed: usize, grid: &[i32; 81], lent: usize) -> Result<usize, Stop>
    requires { lent < 2 ^ 63 }
    ensures { answer_of result ≡ write_of needed grid.now lent }
{
    if lent < needed {
        return Err(Stop::TooFewBytes(lent as i64));
    }
    clues::check_clues(grid)?;
    Ok(needed)
}

// The text of 81 clues, `.` for open, in the first 81 lent bytes.
pub fn write_text(grid: &[i32; 81], out: &mut [u8]) -> Result<usize, Stop>
    ensures { (answer_of result ≡ write_of 81 grid.now (length out.old)) × (out.new ≡ written (write_of 81 grid.now (length out.old)) (text_of grid.now) out.old) }
{
    let count = writing(81, grid, out.len())?;
    put_text(grid, out);
    Ok(count)
}
