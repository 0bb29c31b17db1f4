// What is written to lent arrays: a call's value, or what they held where the call was refused.
ghost use Rattle.std.specs.Prelude.{◌≡◌};
ghost use Rattle.stops.specs.Answer.{answer_of, map, value_or};
ghost use Rattle.sudoku.specs.Boards.{clue_number};
ghost use Rattle.sudoku.specs.Codes.{coded, no_number};

use crate::codes;
use board::count_clues;
use stops::Stop;

// How many of 81 numbers are clues.
pub fn clue_number(clues: &[i32; 81]) -> i64
    ensures { result ≡ clue_number clues.now }
{
    count_clues(clues) as i64
}

// A call whose value is an array: nothing but its stop is a number.
pub fn put<T: Copy>(found: Result<T, Stop>, lent: &mut T, answer: &mut [i64; 4])
    ensures { (answer.new ≡ coded (map no_number (answer_of found)) 0) × (lent.new ≡ value_or lent.old (answer_of found)) }
{
    match found {
        Err(stop) => *answer = codes::of_stop(stop, 0),
        Ok(value) => {
            *answer = codes::of_given(0, 0);
            *lent = value;
        }
    }
}

// A grid that was read or made: its clues, and how many they are.
pub fn put_grid(grid: Result<[i32; 81], Stop>, clues: &mut [i32; 81], answer: &mut [i64; 4])
    ensures { (answer.new ≡ coded (map clue_number (answer_of grid)) 0) × (clues.new ≡ value_or clues.old (answer_of grid)) }
{
    match grid {
        Err(stop) => *answer = codes::of_stop(stop, 0),
        Ok(numbers) => {
            *answer = codes::of_given(clue_number(&numbers), 0);
            *clues = numbers;
        }
    }
}
