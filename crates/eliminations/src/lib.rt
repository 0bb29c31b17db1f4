// The calls that remove candidates: the ported eliminations with the original's names, the wide passes and the two chain passes. Each checks its board
// first; what it removes is worked out over lent givens and masks by the crates below.
#![tactic(auto)]

ghost use Rattle.std.specs.Prelude.{◌≡◌};
ghost use Rattle.stops.specs.Answer.{answer_of, map};
ghost use Rattle.steps.specs.Calls.{answer, box_line_call, chain_call, left, naked_pairs_call, outcome, wide, x_chain_call, x_wing_call};
ghost use Rattle.steps.specs.Passes.{Claiming, Cross, Lone, Pair, Place, Pointing};
ghost use Rattle.board.specs.Boards.{board_of, handed};
ghost use Rattle.eliminations.specs.Eliminations.{Eliminates};
ghost use Rattle.eliminations.specs.code.Calls.{call_of};

use board::entries::givens_of;
use board::{Board, check_given};
use cells::changed;
use chains::chains;
use chains::x_chains::x_chains;
use locked::{claiming, pointing};
use lone_place::{lone, place};
use pair_cross::{cross, pair};
use stops::Stop;
use techniques::box_lines::box_lines;
use techniques::naked_pairs::naked_pairs;
use techniques::x_wings::x_wings;

// The calls that remove candidates. `eliminate` names each one's pass in a line, for which a trait would need a type and an impl, and a closure a
// `requires`; callers would match on a step's number all the same.
#[derive(Clone, Copy)]
pub enum Elimination {
    NakedPairs,
    BoxLine,
    XWing,
    Lone,
    Place,
    Pair,
    Pointing,
    Claiming,
    Cross,
    Chains,
    XChains,
}

// What such a call leaves, over lent masks that are not checked.
#[tactic(auto, unfolding(steps::specs::Calls::outcome))]
pub fn eliminate(elimination: Elimination, givens: &[u8; 81], masks: &mut [u16; 81])
    ensures { masks.new ≡ (outcome (call_of elimination) givens.now masks.old).masks }
{
    match elimination {
        Elimination::NakedPairs => naked_pairs(givens, masks),
        Elimination::BoxLine => box_lines(givens, masks),
        Elimination::XWing => x_wings(givens, masks),
        Elimination::Lone => lone(givens, masks),
        Elimination::Place => place(givens, masks),
        Elimination::Pair => pair(givens, masks),
        Elimination::Pointing => pointing(givens, masks),
        Elimination::Claiming => claiming(givens, masks),
        Elimination::Cross => cross(givens, masks),
        Elimination::Chains => chains(givens, masks),
        Elimination::XChains => x_chains(givens, masks),
    }
}

// Such a call over a lent board, which is checked first; beside a refusal the masks stay as they were.
#[tactic(auto, unfolding(steps::specs::Calls::answer))]
pub fn eliminate_handed(
    elimination: Elimination,
    clues: &[i32; 81],
    entries: &[i32; 81],
    masks: &mut [u16; 81],
) -> Result<bool, Stop>
    ensures result_value { answer_of result ≡ map (λ o. o.flag) (answer (call_of elimination) (handed clues.now entries.now masks.old)) }
    ensures masks_after { masks.new ≡ (left (handed clues.now entries.now masks.old) (answer (call_of elimination) (handed clues.now entries.now masks.old))).masks }
{
    let givens = givens_of(clues, entries);
    check_given(clues, entries, &givens, masks)?;
    let before = *masks;
    eliminate(elimination, &givens, masks);
    Ok(changed(before, *masks))
}

fn apply(elimination: Elimination, board: &mut Board) -> Result<bool, Stop>
    ensures { Eliminates (call_of elimination) (board_of board.old) result (board_of board.new) }
{
    eliminate_handed(elimination, &board.clues, &board.entries, &mut board.masks)
}

pub fn apply_naked_pairs(board: &mut Board) -> Result<bool, Stop>
    ensures { Eliminates naked_pairs_call (board_of board.old) result (board_of board.new) }
{
    apply(Elimination::NakedPairs, board)
}

pub fn apply_box_line_reduction(board: &mut Board) -> Result<bool, Stop>
    ensures { Eliminates box_line_call (board_of board.old) result (board_of board.new) }
{
    apply(Elimination::BoxLine, board)
}

pub fn apply_x_wing(board: &mut Board) -> Result<bool, Stop>
    ensures { Eliminates x_wing_call (board_of board.old) result (board_of board.new) }
{
    apply(Elimination::XWing, board)
}

pub fn apply_lone(board: &mut Board) -> Result<bool, Stop>
    ensures { Eliminates (wide Lone) (board_of board.old) result (board_of board.new) }
{
    apply(Elimination::Lone, board)
}

pub fn apply_place(board: &mut Board) -> Result<bool, Stop>
    ensures { Eliminates (wide Place) (board_of board.old) result (board_of board.new) }
{
    apply(Elimination::Place, board)
}

pub fn apply_pair(board: &mut Board) -> Result<bool, Stop>
    ensures { Eliminates (wide Pair) (board_of board.old) result (board_of board.new) }
{
    apply(Elimination::Pair, board)
}

pub fn apply_pointing(board: &mut Board) -> Result<bool, Stop>
    ensures { Eliminates (wide Pointing) (board_of board.old) result (board_of board.new) }
{
    apply(Elimination::Pointing, board)
}

pub fn apply_claiming(board: &mut Board) -> Result<bool, Stop>
    ensures { Eliminates (wide Claiming) (board_of board.old) result (board_of board.new) }
{
    apply(Elimination::Claiming, board)
}

pub fn apply_cross(board: &mut Board) -> Result<bool, Stop>
    ensures { Eliminates (wide Cross) (board_of board.old) result (board_of board.new) }
{
    apply(Elimination::Cross, board)
}

pub fn apply_alternating_inference_chains(board: &mut Board) -> Result<bool, Stop>
    ensures { Eliminates chain_call (board_of board.old) result (board_of board.new) }
{
    apply(Elimination::Chains, board)
}

pub fn apply_x_chains(board: &mut Board) -> Result<bool, Stop>
    ensures { Eliminates x_chain_call (board_of board.old) result (board_of board.new) }
{
    apply(Elimination::XChains, board)
}
