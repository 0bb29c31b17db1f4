// The grid: rows, columns and boxes, who sees whom, and the verifier of filled grids (module 10).
// A cell is its number, 0 to 80; a unit its number, 0 to 8 for rows, 9 to 17 for columns, 18 to 26 for boxes.
#![tactic(auto)]

ghost use Rattle.std.specs.Prelude.{◌≡◌};
ghost use Rattle.grid.specs.Cells.{row, col, box, aligned, sees, peer_table};
ghost use Rattle.grid.specs.Units.{units, unit_cell};
ghost use Rattle.grid.specs.Fillings.{verified};

use tables::{PEERS, UNITS};

pub mod cell_units;
pub mod scopes;
mod tables;
mod verifier;

// The unit table, from the file that is the output of the program `tables`. It is handed out whole: an index into a constant copies the constant each
// time, so a caller takes it once and lends it.
pub fn unit_table() -> [[u8; 9]; 27]
    ensures { result ≡ units }
{
    UNITS
}

// The peer table, in the same way.
pub fn peer_table() -> [[u8; 20]; 81]
    ensures { result ≡ peer_table }
{
    PEERS
}

// The cell at a place 0 to 8 of a unit; 81 past the table. It is worked out: an index into a constant copies it.
// No `Option`: 81 is no cell, holds nothing and loses nothing, so no caller has a case for it.
pub fn unit_cell(unit: usize, place: usize) -> usize
    ensures { result ≡ unit_cell unit place }
{
    if 9 <= place {
        return 81;
    }
    if unit < 9 {
        return 9 * unit + place;
    }
    if unit < 18 {
        return unit - 9 + 9 * place;
    }
    if unit < 27 {
        let block = unit - 18;
        return 27 * (block / 3) + 3 * (block % 3) + 9 * (place / 3) + place % 3;
    }
    81
}

pub fn row_of(cell: usize) -> usize
    ensures { result ≡ row cell }
{
    cell / 9
}

pub fn col_of(cell: usize) -> usize
    ensures { result ≡ col cell }
{
    cell % 9
}

pub fn box_of(cell: usize) -> usize
    ensures { result ≡ box cell }
{
    3 * (cell / 9 / 3) + cell % 9 / 3
}

// Whether the cells share a row, a column or a box; a cell shares them with itself.
pub fn positions_see_each_other(a: usize, b: usize) -> bool
    ensures { result ≡ aligned a b }
{
    row_of(a) == row_of(b) || col_of(a) == col_of(b) || box_of(a) == box_of(b)
}

// Whether the cells are peers: two different cells that share a unit.
pub fn are_peers(a: usize, b: usize) -> bool
    ensures { result ≡ sees a b }
{
    a != b && positions_see_each_other(a, b)
}

// Yes exactly if all numbers are 1 to 9 and no row, column or box repeats one. Any other number is a plain no.
// Each cell is met once: its digit is marked in its three units, and the first number that is no digit or is marked already makes it no.
pub fn verify_solution(grid: &[i32; 81]) -> bool
    ensures { result ≡ verified grid.now }
{
    let mut marks = [0u16; 27];
    for band in 0..3 {
        if !verifier::mark_band(grid, &mut marks, band) {
            return false;
        }
    }
    true
}
