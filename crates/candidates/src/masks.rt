// Masks of digits, and of rows or columns, as the passes use them: by value, total, and the only bit arithmetic of the engine.
ghost use Rattle.std.specs.Prelude.{◌≡◌, ◌-◌, eqb};
ghost use Rattle.std.specs.Int.Bits.{bit_and};
ghost use Rattle.candidates.specs.Masks.{has, minus, union, count, single, place_mask, first_place, lowest, tail};

pub fn has_digit(mask: u16, place: usize) -> bool
    ensures { result ≡ has mask place }
{
    if place < 16 {
        return (mask >> place) % 2 == 1;
    }
    false
}

// Shifted as wide as the place is, which then goes into the shift and into a test of the mask as it stands: fewer instructions.
pub fn digit_mask(place: usize) -> u16
    ensures { result ≡ place_mask place }
{
    if place < 16 {
        return (1usize << place) as u16;
    }
    0
}

// `mask` without the digits of `lost`.
pub fn lose(mask: u16, lost: u16) -> u16
    ensures { result ≡ minus mask lost }
{
    mask - (mask & lost)
}

pub fn lose_digit(mask: u16, place: usize) -> u16
    ensures { result ≡ minus mask (single place) }
{
    lose(mask, digit_mask(place))
}

// The digits that both masks hold.
pub fn meet(a: u16, b: u16) -> u16
    ensures { result ≡ bit_and a b }
{
    a & b
}

pub fn join(a: u16, b: u16) -> u16
    ensures { result ≡ union a b }
{
    a | b
}

pub fn digit_count(mask: u16) -> usize
    ensures { result ≡ count mask }
{
    u16::count_ones(mask) as usize
}

// The first place at `from` or above that `mask` holds below 9; 9 or `from`, whichever is more, where it holds none.
pub fn first_digit(mask: u16, from: usize) -> usize
    ensures { result ≡ first_place (9 - from) from mask }
{
    if 9 <= from {
        return from;
    }
    let place = from + lowest_digit(mask >> from);
    if place < 9 {
        return place;
    }
    9
}

// The place of the lowest digit, 16 for the empty set.
pub fn lowest_digit(mask: u16) -> usize
    ensures { result ≡ lowest mask }
{
    u16::trailing_zeros(mask) as usize
}

// `mask` without its lowest digit.
pub fn lose_lowest(mask: u16) -> u16
    ensures { result ≡ tail mask }
{
    if mask == 0 {
        return 0;
    }
    mask & (mask - 1)
}

// A word of the field's, as `is_one` and `is_two` are: no caller spells a set as a number.
pub fn is_none(mask: u16) -> bool
    ensures { result ≡ eqb (count mask) 0 }
{
    mask == 0
}

pub fn is_one(mask: u16) -> bool
    ensures { result ≡ eqb (count mask) 1 }
{
    if mask == 0 {
        return false;
    }
    lose_lowest(mask) == 0
}

pub fn is_two(mask: u16) -> bool
    ensures { result ≡ eqb (count mask) 2 }
{
    is_one(lose_lowest(mask))
}
