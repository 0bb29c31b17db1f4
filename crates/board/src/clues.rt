// Clues as callers give them: any signed 32-bit numbers. Only the functions of this file look at their sign; the rest of the
// engine works on givens, the digit of each cell or 0 where it is open.
ghost use Rattle.std.specs.Prelude.{◌≡◌};
ghost use Rattle.steps.specs.Boards.{digit_of, givens_of};
ghost use Rattle.stops.specs.Answer.{answer_of, stop_at};
ghost use Rattle.stops.specs.declared.Stop.TheVariants.{BadClue};
ghost use Rattle.steps.specs.Calls.{bad_clue, first_bad_clue};
ghost use Rattle.board.specs.code.Checks.{is_found};

use stops::Stop;

// Whether a number is outside 0 to 9.
pub fn is_bad(clue: i32) -> bool
    ensures { result ≡ bad_clue clue }
{
    clue < 0 || 9 < clue
}

// The digit of a clue, 0 where its cell is open; 0 also for a number that is no clue.
pub fn given_digit(clue: i32) -> u8
    ensures { result ≡ digit_of clue }
{
    if is_bad(clue) { 0 } else { clue as u8 }
}

pub fn givens_of(clues: &[i32; 81]) -> [u8; 81]
    ensures { result ≡ givens_of clues.now }
{
    let mut givens = [0u8; 81];
    for cell in 0..81 {
        givens[cell] = given_digit(clues[cell]);
    }
    givens
}

// Whether any clue is bad. It does not end at the first, so that the compiler tests several at once; the checks for the other stops go the same way.
fn any_bad(clues: &[i32; 81]) -> bool
    ensures { result ≡ is_found (first_bad_clue clues.now) }
{
    let mut any = false;
    for cell in 0..81 {
        any = any | is_bad(clues[cell]);
    }
    any
}

// Stop 3 with its first cell.
pub fn check_clues(clues: &[i32; 81]) -> Result<(), Stop>
    ensures { answer_of result ≡ stop_at BadClue (first_bad_clue clues.now) }
{
    if !any_bad(clues) {
        return Ok(());
    }
    for cell in 0..81 {
        if is_bad(clues[cell]) {
            return Err(Stop::BadClue(cell as i64));
        }
    }
    Ok(())
}
