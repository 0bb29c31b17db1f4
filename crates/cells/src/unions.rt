// Unions of nine masks: what they hold, what two of them hold, and what those hold that have more than one digit.
ghost use Rattle.std.specs.Prelude.{◌≡◌, cond};
ghost use Rattle.candidates.specs.Masks.{has};
ghost use Rattle.cells.specs.code.Unions.{joined, joined_at, shared_of, several_in, several_of};

use candidates::masks;

pub fn join_all(nine: &[u16; 9]) -> u16
    ensures { result ≡ joined nine.now }
{
    let mut held: u16 = 0;
    for mask in nine {
        held = masks::join(held, *mask);
    }
    held
}

// A mask, or none if the place is not among these.
fn mask_if(places: u16, place: usize, mask: u16) -> u16
    ensures { result ≡ cond (has places place) mask 0 }
{
    if masks::has_digit(places, place) {
        return mask;
    }
    0
}

// What the masks at these places hold.
pub fn join_places(nine: &[u16; 9], places: u16) -> u16
    ensures { result ≡ joined_at nine.now places }
{
    let mut held: u16 = 0;
    for (place, mask) in nine.iter().enumerate() {
        held = masks::join(held, mask_if(places, place, *mask));
    }
    held
}

// The digits that two or more of the masks hold.
pub fn shared(nine: &[u16; 9]) -> u16
    ensures { result ≡ shared_of nine.now }
{
    let mut seen: u16 = 0;
    let mut both: u16 = 0;
    for mask in nine {
        both = masks::join(both, masks::meet(seen, *mask));
        seen = masks::join(seen, *mask);
    }
    both
}

// A mask, or none if it has one digit. An empty one is none either way, so that one test of the rest is enough.
fn unless_one(mask: u16) -> u16
    ensures { result ≡ several_in mask }
{
    if masks::lose_lowest(mask) == 0 {
        return 0;
    }
    mask
}

// What the masks hold that have more than one digit.
pub fn several(nine: &[u16; 9]) -> u16
    ensures { result ≡ several_of nine.now }
{
    let mut held: u16 = 0;
    for mask in nine {
        held = masks::join(held, unless_one(*mask));
    }
    held
}
