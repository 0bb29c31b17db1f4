// The rows or columns by digits: a lane for each digit, whose lines are the places of the rows or columns that hold it.
ghost use Rattle.std.specs.Prelude.{◌≡◌, cond, ◌<◌, ◌≤◌, eqb};
ghost use Rattle.std.specs.Int.Bits.{bit_and};
ghost use Rattle.candidates.specs.Masks.{place_mask};
ghost use Rattle.pair_cross.specs.code.Spots.{spots_of, spot_sets, open_places, sets_put, DigitLanes, places_if};

use candidates::masks;

fn spot(held: u16, one: u16, place: usize) -> u16
    ensures { result ≡ cond (eqb (bit_and held one) 0) 0 (place_mask place) }
{
    if masks::meet(held, one) == 0 {
        return 0;
    }
    masks::digit_mask(place)
}

// The places of a lane that hold a digit.
fn spots(lanes: &[u16; 432], lane: usize, one: u16) -> u16
    requires { lane < 48 }
    ensures { result ≡ spots_of lanes.now lane one }
{
    let mut found: u16 = 0;
    for place in 0..9 {
        found = masks::join(found, spot(lanes[48 * place + lane], one, place));
    }
    found
}

// The same for each digit.
fn spot_sets(lanes: &[u16; 432], lane: usize) -> [u16; 16]
    requires { lane < 48 }
    ensures { result ≡ spot_sets lanes.now lane }
{
    let mut sets = [0u16; 16];
    for (digit, set) in sets.iter_mut().enumerate() {
        *set = spots(lanes, lane, masks::digit_mask(digit));
    }
    sets
}

// The open places of nine lines from the first lane on; `doors` are those of the givens, in lanes.
pub fn open_places(doors: &[u16; 432], first: usize) -> [u16; 9]
    requires { first ≤ 32 }
    ensures { result ≡ open_places doors.now first }
{
    let mut nine = [0u16; 9];
    for (line, places) in nine.iter_mut().enumerate() {
        *places = spots(doors, first + line, 1);
    }
    nine
}

fn put_sets(digits: &mut [u16; 432], line: usize, sets: &[u16; 16])
    requires { line < 9 }
    ensures { digits.new ≡ sets_put line sets.now digits.old }
{
    for (digit, set) in sets.iter().enumerate() {
        digits[48 * line + digit] = *set;
    }
}

// The lanes of the digits, of nine lines from the first lane on.
pub fn digit_lanes(lanes: &[u16; 432], first: usize) -> [u16; 432]
    requires { first ≤ 32 }
    ensures { DigitLanes lanes.now first result }
{
    let mut digits = [0u16; 432];
    for line in 0..9 {
        let sets = spot_sets(lanes, first + line);
        put_sets(&mut digits, line, &sets);
    }
    digits
}

fn places_if(held: u16, one: u16) -> u16
    ensures { result ≡ cond (eqb (bit_and held one) 0) 0 511 }
{
    if masks::meet(held, one) == 0 {
        return 0;
    }
    511
}

// All places for each digit that the mask holds, none for the others.
pub fn places_of_digits(held: u16) -> [u16; 16]
    ensures { result ≡ places_if held }
{
    let mut sets = [0u16; 16];
    for (digit, set) in sets.iter_mut().enumerate() {
        *set = places_if(held, masks::digit_mask(digit));
    }
    sets
}
