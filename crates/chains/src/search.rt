// The search for a chain: a path of cells that hold the digit, weak and strong links in turn. A path has at most seven cells, "Depth 0 to 6".
ghost use Rattle.std.specs.Prelude.{◌≡◌, ◌-◌, ◌≤◌, length, reverse};
ghost use Rattle.steps.specs.Chains.{chain_end};
ghost use Rattle.chains.specs.code.Links.{found_cell, between_at, elimination_in, enter_in};

use crate::links::Holders;
use crate::lists::{Cells, candidate_positions};
use grid::are_peers;

// The cell, if it is a peer of both ends.
fn between(start: u8, end: u8, cell: u8) -> Option<usize>
    ensures { found_cell result ≡ between_at start end cell }
{
    let at = cell as usize;
    if are_peers(start as usize, at) && are_peers(end as usize, at) {
        Some(at)
    } else {
        None
    }
}

// The lowest holder that sees both ends of a path of four cells or more, if they see each other.
fn find_aic_elimination(holders: &[u8], depth: usize, start: u8, end: u8) -> Option<usize>
    ensures { found_cell result ≡ elimination_in holders.now depth start end }
{
    if depth < 3 || !are_peers(start as usize, end as usize) {
        return None;
    }
    for cell in holders {
        let found = between(start, end, *cell);
        if found.is_some() {
            return found;
        }
    }
    None
}

// Enters the cell after the path, whose length is the depth, and goes on one level deeper until depth 6.
fn build_chain(holders: &Holders, start: u8, path: &Cells<7>, cell: u8, weak: bool) -> Option<usize>
    requires { length path.now ≤ 6 }
    ensures { found_cell result ≡ enter_in holders.now (7 - length path.now) start weak (reverse path.now) cell }
{
    let depth = path.len();
    if path.contains(cell) {
        return None;
    }
    let here = find_aic_elimination(holders.as_slice(), depth, start, cell);
    if here.is_some() {
        return here;
    }
    if depth == 6 {
        return None;
    }
    let longer = path.followed_by(cell);
    let links = holders.links(weak, cell);
    for next in links.as_slice() {
        let found = build_chain(holders, start, &longer, *next, !weak);
        if found.is_some() {
            return found;
        }
    }
    None
}

// The cell that the first chain finds, starting cells rising.
pub fn chain_end(givens: &[u8; 81], masks: &[u16; 81], digit: usize) -> Option<usize>
    ensures { found_cell result ≡ chain_end givens.now masks.now digit }
{
    let holders = Holders::new(candidate_positions(givens, masks, digit));
    for start in holders.as_slice() {
        let found = build_chain(&holders, *start, &Cells::new(), *start, true);
        if found.is_some() {
            return found;
        }
    }
    None
}
