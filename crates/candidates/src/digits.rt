// The set's calls on a bare mask and a digit as a caller gives it, which may be any signed number.
ghost use Rattle.std.specs.Prelude.{◌≡◌, ◌+◌, min, pos};
ghost use Rattle.stops.specs.Answer.{answer_of};
ghost use Rattle.candidates.specs.Sets.{at_digit, place, place_if, contains_of, insert_of, inserted, removed};

use crate::masks;
use stops::Stop;

// The place of a digit, 0 to 8; none for a number outside 1 to 9.
// One is taken off before the cast: the compiler then knows the place's range, and the tests of it in `masks` go: fewer instructions.
pub fn place_of(digit: i32) -> Option<usize>
    ensures { result ≡ place_if digit }
{
    if digit < 1 || 9 < digit {
        return None;
    }
    Some((digit - 1) as usize)
}

// The same, or stop 4 with the digit.
pub fn checked_place(digit: i32) -> Result<usize, Stop>
    ensures { answer_of result ≡ at_digit digit (place digit) }
{
    place_of(digit).ok_or(Stop::BadDigit(digit))
}

// The digit at a place; places past the mask's 16 count as 16.
pub fn digit_at(place: usize) -> i32
    ensures { result ≡ pos (min place 16 + 1) }
{
    if 16 <= place {
        return 17;
    }
    (place + 1) as i32
}

// Whether the digit is there.
pub fn presence(mask: u16, digit: i32) -> Result<bool, Stop>
    ensures { answer_of result ≡ contains_of mask digit }
{
    Ok(masks::has_digit(mask % 512, checked_place(digit)?))
}

pub fn insertion(digit: i32) -> Result<(), Stop>
    ensures { answer_of result ≡ insert_of digit }
{
    checked_place(digit)?;
    Ok(())
}

// The mask after `insert`; a bad digit leaves it as it is, higher bits too.
pub fn with_digit(mask: u16, digit: i32) -> u16
    ensures { result ≡ inserted mask digit }
{
    match place_of(digit) {
        Some(place) => masks::join(mask % 512, masks::digit_mask(place)),
        None => mask,
    }
}

// The mask after `remove`, likewise.
pub fn without_digit(mask: u16, digit: i32) -> u16
    ensures { result ≡ removed mask digit }
{
    match place_of(digit) {
        Some(place) => masks::lose(mask % 512, masks::digit_mask(place)),
        None => mask,
    }
}
