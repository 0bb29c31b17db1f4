// Lists of cells in fixed memory.
ghost use Rattle.std.specs.Prelude.{◌≡◌, ◌==◌, ◌≤◌, ◌<◌, ℕ, List, [], ◌∷◌, ◌++◌, take, length};
ghost use Rattle.grid.specs.Cells.{cells};
ghost use Rattle.std.specs.List.{list_any};
ghost use Rattle.steps.specs.Loops.{select};
ghost use Rattle.steps.specs.Ported.{holds};

use candidates::masks;
use cells::open_mask;
use std::marker::Model;

// At most `N` cells.
#[derive(Drop)]
pub struct Cells<const N: usize> {
    cells: [u8; N],
    count: usize,
}

// Clauses see the list, the first cell first.
impl<const N: usize> Model for Cells<N> {
    ghost Value = { List ℕ };

    ghost view = { λ l. take l.count l.cells };

    ghost invariant = { λ l. l.count ≤ N };
}

impl<const N: usize> Cells<N> {
    pub fn new() -> Self
        ensures { result ≡ [] }
    {
        Cells {
            cells: [0; N],
            count: 0,
        }
    }

    pub fn push(&mut self, cell: u8)
        requires { length self.old < N }
        ensures { self.new ≡ self.old ++ cell ∷ [] }
    {
        self.cells[self.count] = cell;
        self.count += 1;
    }

    pub fn as_slice(&self) -> &[u8]
        ensures same { result.now ≡ self.now }
        ensures few { length self.now ≤ N }
    {
        &self.cells[..self.count]
    }

    pub fn len(&self) -> usize
        ensures length { result ≡ length self.now }
        ensures few { length self.now ≤ N }
    {
        self.as_slice().len()
    }

    pub fn contains(&self, cell: u8) -> bool
        ensures { result ≡ list_any (λ x. cell == x) self.now }
    {
        self.as_slice().iter().any(|other| cell == *other)
    }

    // A list of its own with the cell at its end.
    pub fn followed_by(&self, cell: u8) -> Self
        requires { length self.now < N }
        ensures { result ≡ self.now ++ cell ∷ [] }
    {
        let mut longer = Cells {
            cells: self.cells,
            count: self.count,
        };
        longer.push(cell);
        longer
    }
}

// The open cells that hold the digit, rising.
pub fn candidate_positions(givens: &[u8; 81], masks: &[u16; 81], digit: usize) -> Cells<81>
    ensures { result ≡ select (holds givens.now masks.now digit) cells }
{
    let mut list = Cells::new();
    for cell in 0..81 {
        if masks::has_digit(open_mask(givens, masks, cell), digit) {
            list.push(cell as u8);
        }
    }
    list
}
