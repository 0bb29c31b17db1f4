// The walk along X-chains: strong and weak links in turn, the first strong, over at most six cells. It marks the ends.
ghost use Rattle.std.specs.Prelude.{◌≡◌, ◌-◌, ◌≤◌, ◌<◌, length, reverse};
ghost use Rattle.chains.specs.code.XLinks.{end_here, marked, walk_ends};

use crate::lists::Cells;
use crate::x_links::Links;

// The fourth cell and the sixth, entered by a strong link, are ends: a weak link would come next.
fn mark(ends: &mut [bool; 81], depth: usize, cell: u8, weak: bool)
    requires { cell < 81 }
    ensures { ends.new ≡ marked (end_here weak depth cell) ends.old }
{
    if weak && 3 <= depth {
        ends[cell as usize] = true;
    }
}

// Enters the cell after the path, whose length is the depth, and goes on one level deeper until depth 5.
pub fn walk(links: &Links, path: &Cells<7>, cell: u8, weak: bool, ends: &mut [bool; 81])
    requires { (length path.now ≤ 5) × (cell < 81) }
    ensures { ends.new ≡ marked (walk_ends links.now.linked links.now.sums (6 - length path.now) weak (reverse path.now) cell) ends.old }
{
    let depth = path.len();
    if path.contains(cell) {
        return;
    }
    mark(ends, depth, cell, weak);
    if depth == 5 {
        return;
    }
    let longer = path.followed_by(cell);
    for i in 0..links.count(weak) {
        if let Some(next) = links.link_at(weak, cell, i) {
            walk(links, &longer, next, !weak, ends);
        }
    }
}
