// The links of a chain among the open holders of a digit.
ghost use Rattle.std.specs.Prelude.{◌≡◌, ℕ, List, [], ◌∷◌, ◌++◌, ◌≤◌, length};
ghost use Rattle.grid.specs.Units.{in_unit};
ghost use Rattle.grid.specs.code.Scopes.{in_scope};
ghost use Rattle.steps.specs.Loops.{select};
ghost use Rattle.steps.specs.Chains.{two_of};
ghost use Rattle.chains.specs.code.Links.{others, unit_counts, weak_in, strong_in, links_in};

use crate::lists::Cells;
use grid::scopes::{Scope, in_scope};
use grid::{box_of, col_of, row_of};
use std::marker::Model;

pub fn holders_in(holders: &Cells<81>, scope: Scope) -> Cells<81>
    ensures { result ≡ select (in_scope scope) holders.now }
{
    let mut list = Cells::new();
    for cell in holders.as_slice() {
        if in_scope(scope, *cell) {
            list.push(*cell);
        }
    }
    list
}

fn push_other(links: &mut Cells<81>, other: u8, cell: u8)
    requires { length links.old ≤ 80 }
    ensures { links.new ≡ links.old ++ others cell (other ∷ []) }
{
    if other != cell {
        links.push(other);
    }
}

// Of just two holders of a unit, those that are not the cell.
fn push_pair(links: &mut Cells<81>, holders: &[u8], cell: u8)
    requires { length links.old ≤ 79 }
    ensures { links.new ≡ links.old ++ others cell (two_of holders.now) }
{
    if let [first, second] = holders {
        push_other(links, *first, cell);
        push_other(links, *second, cell);
    }
}

// How many holders each unit has.
fn unit_counts(holders: &Cells<81>) -> [u8; 27]
    ensures { result ≡ unit_counts holders.now }
{
    let mut counts = [0u8; 27];
    for unit in 0..27 {
        let found = holders_in(holders, Scope::Unit(unit));
        counts[unit] = found.len() as u8;
    }
    counts
}

// The open holders of a digit, rising, and how many of them each unit has.
#[derive(Drop)]
pub struct Holders {
    cells: Cells<81>,
    counts: [u8; 27],
}

// Clauses see the holders.
impl Model for Holders {
    ghost Value = { List ℕ };

    ghost view = { λ h. h.cells };

    ghost invariant = { λ h. h.counts ≡ unit_counts h.cells };
}

impl Holders {
    pub fn new(cells: Cells<81>) -> Self
        ensures { result ≡ cells }
    {
        let counts = unit_counts(&cells);
        Holders { cells, counts }
    }

    pub fn as_slice(&self) -> &[u8]
        ensures { result.now ≡ self.now }
    {
        self.cells.as_slice()
    }

    // The links through a unit after those that are there. Most units have more holders than two, so their counts are asked first.
    fn push_unit(&self, links: &mut Cells<81>, unit: usize, cell: u8)
        requires { length links.old ≤ 79 }
        ensures { links.new ≡ links.old ++ others cell (two_of (select (in_unit unit) self.now)) }
    {
        if self.counts.get(unit).copied().unwrap_or(0) == 2 {
            let pair = holders_in(&self.cells, Scope::Unit(unit));
            push_pair(links, pair.as_slice(), cell);
        }
    }

    // Rows, columns and boxes of the cell with just two holders: the other one. Repeats are kept.
    fn strong_links(&self, cell: u8) -> Cells<81>
        ensures { result ≡ strong_in self.now cell }
    {
        let at = cell as usize;
        let mut links = Cells::new();
        self.push_unit(&mut links, row_of(at), cell);
        self.push_unit(&mut links, 9 + col_of(at), cell);
        self.push_unit(&mut links, 18 + box_of(at), cell);
        links
    }

    // Other holders that the cell sees, rising.
    fn weak_links(&self, cell: u8) -> Cells<81>
        ensures { result ≡ weak_in self.now cell }
    {
        holders_in(&self.cells, Scope::Peers(cell as usize))
    }

    pub fn links(&self, weak: bool, cell: u8) -> Cells<81>
        ensures { result ≡ links_in self.now weak cell }
    {
        if weak {
            self.weak_links(cell)
        } else {
            self.strong_links(cell)
        }
    }
}
