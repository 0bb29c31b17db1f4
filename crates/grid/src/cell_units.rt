// A mask for each of the 27 units: what the units of a cell hold, and a mask that joins them. The verifier marks the digits that it meets so,
// and a board's fresh masks come so of its clues.
ghost use Rattle.std.specs.Prelude.{◌≡◌, ◌+◌, ◌<◌};
ghost use Rattle.grid.specs.Cells.{cell, box};
ghost use Rattle.grid.specs.Marks.{join_at, join_units, seen};

use candidates::masks;

// A mask joins that of a unit.
fn join_at(marks: &mut [u16; 27], unit: usize, mask: u16)
    requires { unit < 27 }
    ensures { marks.new ≡ join_at unit mask marks.old }
{
    marks[unit] = masks::join(marks[unit], mask);
}

// The three units of a cell: its row and its column, 0 to 8 both, and its box by the number that it has as a unit.
#[derive(Clone, Copy)]
pub struct CellUnits {
    pub row: usize,
    pub col: usize,
    pub block: usize,
    ghost of_one_cell: { (row < 9) × (col < 9) × (block ≡ 18 + box (cell row col)) },
}

impl CellUnits {
    // Those of a cell by its row and its column.
    pub fn at(row: usize, col: usize) -> CellUnits
        requires { (row < 9) × (col < 9) }
        ensures { (result.row ≡ row) × (result.col ≡ col) }
    {
        CellUnits {
            row,
            col,
            block: 18 + (3 * (row / 3) + col / 3),
        }
    }

    // The digits that one of the three holds.
    pub fn seen_digits(self, marks: &[u16; 27]) -> u16
        ensures { result ≡ seen marks.now (cell self.row self.col) }
    {
        let lines = masks::join(marks[self.row], marks[9 + self.col]);
        masks::join(lines, marks[self.block])
    }

    // A mask joins those of the three.
    pub fn join(self, marks: &mut [u16; 27], mask: u16)
        ensures { marks.new ≡ join_units (cell self.row self.col) mask marks.old }
    {
        join_at(marks, self.row, mask);
        join_at(marks, 9 + self.col, mask);
        join_at(marks, self.block, mask);
    }
}
