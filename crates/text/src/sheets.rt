// Pasted sheets (document 02, F-2): a grid with rulings is read, and 81 clues are written as its canonical sheet.
ghost use Rattle.std.specs.Prelude.{◌≡◌, ◌++◌, ◌≤◌, drop, length};
ghost use Rattle.stops.specs.Answer.{answer_of};
ghost use Rattle.text.specs.Texts.{write_of, written};
ghost use Rattle.text.specs.Sheets.{canonical_sheet, cells_of, passed_over, sheet_of};

use crate::{byte_clue, clue_byte, is_other, writing};
use stops::Stop;

// Whether a byte is one of a sheet's rulings.
fn is_passed_over(byte: u8) -> bool
    ensures { result ≡ passed_over byte }
{
    match byte {
        b' ' | b'|' | b'-' | b'+' | b'\r' | b'\n' => true,
        _ => false,
    }
}

// The cells of a sheet: stop 2 with the offset of the first byte that is neither a cell nor passed over, then stop 11 with the number of cells.
fn read_cells(sheet: &[u8]) -> Result<[i32; 81], Stop>
    ensures { answer_of result ≡ cells_of sheet.now }
{
    let mut clues = [0i32; 81];
    let mut count: usize = 0;
    for (index, byte) in sheet.iter().enumerate() {
        if !is_passed_over(*byte) {
            if is_other(*byte) {
                return Err(Stop::OtherByte(index as i64));
            }
            if count < 81 {
                clues[count] = byte_clue(*byte);
            }
            count += 1;
        }
    }
    if count != 81 {
        return Err(Stop::SheetCells(count as i64));
    }
    Ok(clues)
}

// The clues of a sheet: stop 10 with a length above 4,096, before any byte is looked at.
pub fn parse_sheet(sheet: &[u8]) -> Result<[i32; 81], Stop>
    ensures { answer_of result ≡ sheet_of sheet.now }
{
    if 4096 < sheet.len() {
        return Err(Stop::SheetLength(sheet.len() as i64));
    }
    read_cells(sheet)
}

fn put_sheet(grid: &[i32; 81], out: &mut [u8])
    requires { 90 ≤ length out.old }
    ensures { out.new ≡ canonical_sheet grid.now ++ drop 90 out.old }
{
    for index in 0..90 {
        let col = index % 10;
        if col == 9 {
            out[index] = b'\n';
        } else {
            out[index] = clue_byte(grid[9 * (index / 10) + col]);
        }
    }
}

// The canonical sheet of 81 clues in the first 90 lent bytes: nine lines of nine characters.
pub fn write_sheet(grid: &[i32; 81], out: &mut [u8]) -> Result<usize, Stop>
    ensures { (answer_of result ≡ write_of 90 grid.now (length out.old)) × (out.new ≡ written (write_of 90 grid.now (length out.old)) (canonical_sheet grid.now) out.old) }
{
    let count = writing(90, grid, out.len())?;
    put_sheet(grid, out);
    Ok(count)
}
