// Trial rounds (document 02, F-11): of a solution's digits, those that a generator of numbers keeps as clues. The same start gives the same round on
// every station.
#![tactic(auto)]

ghost use Rattle.std.specs.Prelude.{◌≡◌};
ghost use Rattle.stops.specs.Answer.{answer_of};
ghost use Rattle.trial_rounds.specs.Rounds.{clue_of, is_kept, Makes, next_state, percentage_check, round_clues, solution_check};

use stops::Stop;

// One move of the generator, in 64 bits: the product does not fit 32.
fn next_state(state: u32) -> u32
    ensures { result ≡ next_state state }
{
    ((1_103_515_245 * u64::from(state) + 12_345) % 2_147_483_648) as u32
}

fn is_kept(state: u32, percentage: u32) -> bool
    ensures { result ≡ is_kept state percentage }
{
    state / 65_536 % 100 < percentage
}

// The clue of a cell: its digit where it is kept, 0 where it is not.
fn clue_of(state: u32, percentage: u32, digit: i32) -> i32
    ensures { result ≡ clue_of state percentage digit }
{
    if is_kept(state, percentage) {
        return digit;
    }
    0
}

// A move for each cell, and then its clue.
fn round_clues(start: u32, percentage: u32, solution: &[i32; 81]) -> [i32; 81]
    ensures { result ≡ round_clues start percentage solution.now }
{
    let mut clues = [0i32; 81];
    let mut state = start % 2_147_483_648;
    for (cell, digit) in solution.iter().enumerate() {
        state = next_state(state);
        clues[cell] = clue_of(state, percentage, *digit);
    }
    clues
}

// Stop 17 with the percentage.
fn check_percentage(percentage: u32) -> Result<(), Stop>
    ensures { answer_of result ≡ percentage_check percentage }
{
    if 100 < percentage {
        return Err(Stop::BadPercentage(percentage));
    }
    Ok(())
}

// Stop 18.
fn check_solution(solution: &[i32; 81]) -> Result<(), Stop>
    ensures { answer_of result ≡ solution_check solution.now }
{
    if grid::verify_solution(solution) {
        return Ok(());
    }
    Err(Stop::BadSolution)
}

// The clues that the generator keeps of a solution, about so many in a hundred.
#[tactic(auto, unfolding(crate::specs::Rounds::round_of))]
pub fn trial_round(start: u32, percentage: u32, solution: &[i32; 81]) -> Result<[i32; 81], Stop>
    ensures { Makes start percentage solution.now result }
{
    check_percentage(percentage)?;
    check_solution(solution)?;
    Ok(round_clues(start, percentage, solution))
}
