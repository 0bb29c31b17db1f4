// The links of X-chains among the open holders of a digit. A unit's strong link is kept as a number, and only cells with a strong link are gone on to.
ghost use Rattle.std.specs.Prelude.{◌≡◌, cond, ◌+◌, ◌<◌, length};
ghost use Rattle.grid.specs.Cells.{sees};
ghost use Rattle.grid.specs.Units.{in_unit};
ghost use Rattle.steps.specs.Loops.{select};
ghost use Rattle.chains.specs.code.XLinks.{pair_sum, pair_sums, own_unit, some_cell, other_of, is_linked, link_at};

use crate::lists::Cells;
use grid::scopes::{Scope, in_scope};
use grid::{are_peers, box_of, col_of, row_of};

fn sum_of(first: u8, second: u8) -> u16
    ensures { result ≡ first + second + 1 }
{
    first as u16 + second as u16 + 1
}

// Of the unit's holders, if they are just two, the sum and one more, so that the one tells the other; else 0. An Option is no plainer here: 0 is at most any cell, so that `other_of` tells no pair and no other by one comparison.
fn pair_sum(holders: &Cells<81>, unit: usize) -> u16
    ensures { result ≡ pair_sum (select (in_unit unit) holders.now) }
{
    let mut pair: Cells<2> = Cells::new();
    for cell in holders.as_slice() {
        if in_scope(Scope::Unit(unit), *cell) {
            if pair.len() == 2 {
                return 0;
            }
            pair.push(*cell);
        }
    }
    if let [first, second] = pair.as_slice() {
        return sum_of(*first, *second);
    }
    0
}

// That of each unit.
fn pair_sums(holders: &Cells<81>) -> [u16; 27]
    ensures { result ≡ pair_sums holders.now }
{
    let mut sums = [0u16; 27];
    for unit in 0..27 {
        sums[unit] = pair_sum(holders, unit);
    }
    sums
}

// Row, column, box: as an array all three would be found at each call.
fn own_unit(cell: usize, nth: usize) -> usize
    ensures { result ≡ own_unit cell nth }
{
    match nth {
        0 => row_of(cell),
        1 => 9 + col_of(cell),
        _ => 18 + box_of(cell),
    }
}

// The cell's strong link through its nth unit.
fn other_of(sums: &[u16; 27], cell: u8, nth: usize) -> Option<u8>
    ensures { result ≡ some_cell (other_of sums.now cell nth) }
{
    let unit = own_unit(cell as usize, nth);
    if 27 <= unit {
        return None;
    }
    let sum = sums[unit];
    let one = cell as u16;
    if sum <= one {
        return None;
    }
    let other = sum - one - 1;
    if other < 81 { Some(other as u8) } else { None }
}

// Whether the cell has a strong link.
fn is_linked(sums: &[u16; 27], cell: u8) -> bool
    ensures { result ≡ is_linked sums.now cell }
{
    other_of(sums, cell, 0).is_some()
        || other_of(sums, cell, 1).is_some()
        || other_of(sums, cell, 2).is_some()
}

// The holders that have one.
fn linked_cells(holders: &Cells<81>, sums: &[u16; 27]) -> Cells<81>
    ensures { result ≡ select (is_linked sums.now) holders.now }
{
    let mut list = Cells::new();
    for cell in holders.as_slice() {
        if is_linked(sums, *cell) {
            list.push(*cell);
        }
    }
    list
}

fn if_seen(cell: u8, next: u8) -> Option<u8>
    ensures { result ≡ some_cell (cond (sees cell next) next 81) }
{
    if next < 81 && are_peers(cell as usize, next as usize) {
        Some(next)
    } else {
        None
    }
}

// The cells that have a strong link, rising, and what each unit's holders sum to.
#[derive(Drop)]
pub struct Links {
    pub linked: Cells<81>,
    pub sums: [u16; 27],
}

impl Links {
    pub fn new(holders: &Cells<81>) -> Self
        ensures sums { result.sums ≡ pair_sums holders.now }
        ensures linked { result.linked ≡ select (is_linked result.sums) holders.now }
    {
        let sums = pair_sums(holders);
        let linked = linked_cells(holders, &sums);
        Links { linked, sums }
    }

    // The ith cell that the walk may go on to: of three strong links, or of the linked cells the ith if it is seen.
    pub fn link_at(&self, weak: bool, cell: u8, i: usize) -> Option<u8>
        requires { i < cond weak (length self.now.linked) 3 }
        ensures { result ≡ some_cell (link_at self.now.linked self.now.sums weak cell i) }
    {
        if weak {
            if_seen(cell, self.linked.as_slice()[i])
        } else {
            other_of(&self.sums, cell, i)
        }
    }

    pub fn count(&self, weak: bool) -> usize
        ensures { result ≡ cond weak (length self.now.linked) 3 }
    {
        if weak { self.linked.len() } else { 3 }
    }
}
