// The verifier's pass over the cells, rising, by bands of three rows: so neither a cell's row and column nor its box are worked out anew.
ghost use Rattle.std.specs.Prelude.{◌≡◌, true, cond, ◌+◌, ◌*◌, ◌/◌, ◌<◌};
ghost use Rattle.grid.specs.Cells.{cell};
ghost use Rattle.grid.specs.Marks.{fits, marked};
ghost use Rattle.grid.specs.code.Standing.{Standing};

use crate::cell_units::CellUnits;
use candidates::{digits, masks};

// One turn: the number of a cell is tested, and marked where it fits.
fn mark_cell(marks: &mut [u16; 27], at: CellUnits, number: i32) -> bool
    ensures { (result ≡ fits marks.old (cell at.row at.col) number) × (marks.new ≡ cond result (marked marks.old (cell at.row at.col) number) marks.old) }
{
    let Some(place) = digits::place_of(number) else {
        return false;
    };
    if masks::has_digit(at.seen_digits(marks), place) {
        return false;
    }
    at.join(marks, masks::digit_mask(place));
    true
}

// The nine cells of a row, whose first box as a unit is `first`.
fn mark_row(grid: &[i32; 81], marks: &mut [u16; 27], row: usize, first: usize) -> bool
    requires { (row < 9) × (first ≡ 18 + 3 * (row / 3)) × Standing grid.now (9 * row) true marks.old }
    ensures { Standing grid.now (9 * row + 9) result marks.new }
{
    for col in 0..9 {
        let at = CellUnits {
            row,
            col,
            block: first + col / 3,
        };
        if !mark_cell(marks, at, grid[9 * row + col]) {
            return false;
        }
    }
    true
}

// The 27 cells of three rows.
pub fn mark_band(grid: &[i32; 81], marks: &mut [u16; 27], band: usize) -> bool
    requires { (band < 3) × Standing grid.now (27 * band) true marks.old }
    ensures { Standing grid.now (27 * band + 27) result marks.new }
{
    for row in 0..3 {
        if !mark_row(grid, marks, 3 * band + row, 18 + 3 * band) {
            return false;
        }
    }
    true
}
