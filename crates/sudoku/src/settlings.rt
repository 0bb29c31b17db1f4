// Settling on arrays: its three counts as the four numbers, its steps, and what each of the six passes removed.
ghost use Rattle.std.specs.Prelude.{◌≡◌};
ghost use Rattle.board.specs.Boards.{handed};
ghost use Rattle.sudoku.specs.Settlings.{settle_code, settle_counts, settle_masks, settle_steps};

use crate::codes;
use board::Board;

// Settling on arrays. The number of steps stands where a stop has its detail.
pub fn settle(
    clues: &[i32; 81],
    entries: &[i32; 81],
    masks: &mut [u16; 81],
    steps: &mut [u8; 4374],
    counts: &mut [usize; 6],
    answer: &mut [i64; 4],
)
    ensures { (masks.new ≡ settle_masks (handed clues.now entries.now masks.old)) × (steps.new ≡ settle_steps (handed clues.now entries.now masks.old) steps.old) × (counts.new ≡ settle_counts (handed clues.now entries.now masks.old) counts.old) × (answer.new ≡ settle_code (handed clues.now entries.now masks.old)) }
{
    let mut board = Board {
        clues: *clues,
        entries: *entries,
        masks: *masks,
    };
    match passes::apply_settling(&mut board) {
        Err(stop) => *answer = codes::of_stop(stop, 0),
        Ok(done) => {
            *answer = [
                0,
                done.steps.count as i64,
                done.counts.sweeps as i64,
                done.counts.removed as i64,
            ];
            let list = done.steps.bytes;
            let by_pass = done.by_pass;
            let after = board.masks;
            *steps = list;
            *counts = by_pass;
            *masks = after;
        }
    }
}
