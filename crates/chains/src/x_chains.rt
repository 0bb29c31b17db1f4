// The X-chain pass (document 02, F-9) over lent givens and masks: single-digit chains with strong links at both ends, so that no filling is lost.
ghost use Rattle.std.specs.Prelude.{◌≡◌, ◌&&◌, ◌<◌};
ghost use Rattle.grid.specs.Cells.{sees};
ghost use Rattle.std.specs.List.{list_any};
ghost use Rattle.steps.specs.XChains.{x_chain_digit, x_chains};
ghost use Rattle.chains.specs.code.XLinks.{ends_of, end_sees, lose_from};

use crate::lists::{Cells, candidate_positions};
use crate::x_links::Links;
use crate::x_walk::walk;
use candidates::masks;
use cells::lose_at;
use grid::are_peers;

// Whether `end` is a marked end that sees the cell.
fn end_sees(ends: &[bool; 81], end: u8, cell: u8) -> bool
    ensures { result ≡ end_sees ends.now cell end }
{
    end < 81 && ends[end as usize] && are_peers(end as usize, cell as usize)
}

// Whether some marked end sees the cell; ends are linked cells.
fn some_end_sees(linked: &[u8], ends: &[bool; 81], cell: u8) -> bool
    ensures { result ≡ list_any (end_sees ends.now cell) linked.now }
{
    linked.iter().any(|end| end_sees(ends, *end, cell))
}

// The ends of the chains from a start.
#[derive(Drop)]
struct Ends {
    start: u8,
    marked: [bool; 81],
}

impl Ends {
    fn from(links: &Links, start: u8) -> Self
        requires { start < 81 }
        ensures start { result.start ≡ start }
        ensures marked { result.marked ≡ ends_of links.now.linked links.now.sums start }
    {
        let mut marked = [false; 81];
        walk(links, &Cells::new(), start, false, &mut marked);
        Ends { start, marked }
    }

    // Whether the cell sees the start and some marked end.
    fn catch(&self, linked: &[u8], cell: u8) -> bool
        ensures { result ≡ (sees self.now.start cell && list_any (end_sees self.now.marked cell) linked.now) }
    {
        are_peers(self.start as usize, cell as usize) && some_end_sees(linked, &self.marked, cell)
    }
}

// What the chains from a start lose: every holder that sees both ends of one. Their links were taken before, so that it may be lost at once.
fn lose_from(
    givens: &[u8; 81],
    masks: &mut [u16; 81],
    lost: u16,
    holders: &[u8],
    links: &Links,
    start: u8,
)
    requires { start < 81 }
    ensures { masks.new ≡ lose_from givens.now lost holders.now links.now.linked links.now.sums start masks.old }
{
    let ends = Ends::from(links, start);
    let linked = links.linked.as_slice();
    for cell in holders {
        if ends.catch(linked, *cell) {
            lose_at(givens, masks, *cell as usize, lost);
        }
    }
}

// The links are taken from the masks at the digit's start.
fn x_chain_digit(givens: &[u8; 81], masks: &mut [u16; 81], digit: usize)
    requires { digit < 9 }
    ensures { masks.new ≡ x_chain_digit givens.now digit masks.old }
{
    let holders = candidate_positions(givens, masks, digit);
    let links = Links::new(&holders);
    let lost = masks::digit_mask(digit);
    let linked = links.linked.as_slice();
    for start in linked {
        lose_from(givens, masks, lost, holders.as_slice(), &links, *start);
    }
}

pub fn x_chains(givens: &[u8; 81], masks: &mut [u16; 81])
    ensures { masks.new ≡ x_chains givens.now masks.old }
{
    for digit in 0..9 {
        x_chain_digit(givens, masks, digit);
    }
}
