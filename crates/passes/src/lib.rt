// A sweep of the six wide passes, and settling (module 9): over lent givens and masks, of which nothing is asked, and as a call on a board.
#![tactic(auto)]

ghost use Rattle.std.specs.Prelude.{◌≡◌, ◌+◌, ◌≤◌, ◌<◌};
ghost use Rattle.std.specs.Int.{w64};
ghost use Rattle.std.proofs.Common.{Fits};
ghost use Rattle.stops.specs.Answer.{answer_of, map};
ghost use Rattle.steps.specs.Boards.{at, total};
ghost use Rattle.steps.specs.Calls.{answer, settling_call};
ghost use Rattle.steps.specs.Difficulty.{removed_each, summed, pass_counts};
ghost use Rattle.steps.specs.Passes.{kinds, pass, instances, settle, removed_by};
ghost use Rattle.steps.specs.StepLists.{sweep_instances, settling_instances};
ghost use Rattle.steps.specs.code.Logs.{log_after};
ghost use Rattle.board.specs.Boards.{board_of, handed};
ghost use Rattle.passes.specs.Settlings.{Settles, counts_of};
ghost use Rattle.passes.specs.code.Handed.{masks_left, log_left, counts_left};
ghost use Rattle.passes.specs.code.Rounds.{nth_kind, LastIdle, Swept};
ghost use Rattle.passes.specs.code.Tallies.{tallied, tally_with, Tally};

mod over;

use board::entries::givens_of;
use board::{Board, check_given};
use cells::notes::{Steps, steps_of};
use cells::total;
use lanes::{LaidGivens, LaidMasks};
use locked::{claiming_lanes, pointing_lanes};
use lone_place::lones::lone_lanes;
use lone_place::places::place_lanes;
use over::is_over;
use pair_cross::crosses::cross_lanes;
use pair_cross::pairs::pair_lanes;
use stops::Stop;

// A wide pass by its number in a sweep, at which the sweep counts it too: an enum of the six would have to be numbered for that. The log takes the steps
// that remove something.
fn nth_pass(givens: &LaidGivens, laid: &mut LaidMasks, log: &mut [u8], nth: usize)
    ensures masks_after { laid.new.masks ≡ pass givens.now.cells (nth_kind nth) laid.old.masks }
    ensures log_after { log.new ≡ log_after givens.now.cells (instances (nth_kind nth)) laid.old.masks log.old }
{
    match nth {
        0 => lone_lanes(&givens.cells, laid, log),
        1 => place_lanes(givens, laid, log),
        2 => pair_lanes(givens, laid, log),
        3 => pointing_lanes(givens, laid, log),
        4 => claiming_lanes(givens, laid, log),
        _ => cross_lanes(givens, laid, log),
    }
}

// A pass is counted at its number: what was left before it, which stands at place 6, less what it leaves.
fn tally_pass(tally: &mut [usize; 7], nth: usize, left: usize)
    requires { (nth < 6) × (left ≤ at tally.old 6) × Fits w64 (summed tally.old) }
    ensures { tally.new ≡ tallied nth left tally.old }
{
    tally[nth] += tally[6] - left;
    tally[6] = left;
}

// A sweep, the six passes in order, left as soon as six passes in a row, some of them of the sweep before, have removed nothing: then none of the six can.
// `idle` is how many in a row had before it, and what is handed back how many have after it. A pass only removes, so that as many candidates are left exactly where it removed nothing; only the others are tallied. Where settling is over with it,
// the passes that are left need not be tried: the sweep is left with five idle ones, and the next one ends at its first.
fn sweep(
    givens: &LaidGivens,
    laid: &mut LaidMasks,
    log: &mut [u8],
    tally: &mut [usize; 7],
    idle: usize,
) -> usize
    requires { (idle < 6) × LastIdle givens.now.cells idle laid.old.masks × Tally laid.old.masks tally.old }
    ensures swept { Swept givens.now.cells laid.old.masks laid.new.masks result }
    ensures log_after { log.new ≡ log_after givens.now.cells sweep_instances laid.old.masks log.old }
    ensures tally { Tally laid.new.masks tally.new }
    ensures tally_after { tally.new ≡ tally_with (removed_each givens.now.cells kinds laid.old.masks) laid.new.masks tally.old }
{
    let mut still = idle;
    for nth in 0..6 {
        if still == 6 {
            return 6;
        }
        nth_pass(givens, laid, log, nth);
        let left = total(laid.masks);
        if left == tally[6] {
            still += 1;
        } else {
            still = 0;
            tally_pass(tally, nth, left);
            if is_over(left, &givens.cells, laid) {
                return 5;
            }
        }
    }
    still
}

// Sweeps until one removes nothing; that last one is counted too, though it is not always run to its end. 730 are always enough.
fn sweep_on(
    givens: &LaidGivens,
    laid: &mut LaidMasks,
    log: &mut [u8],
    tally: &mut [usize; 7],
) -> usize
    requires { Tally laid.old.masks tally.old }
    ensures value { result ≡ (settle givens.now.cells laid.old.masks).sweeps }
    ensures masks_after { laid.new.masks ≡ (settle givens.now.cells laid.old.masks).left }
    ensures log_after { log.new ≡ log_after givens.now.cells (settling_instances givens.now.cells laid.old.masks) laid.old.masks log.old }
    ensures tally_after { tally.new ≡ tally_with (pass_counts givens.now.cells laid.old.masks) laid.new.masks tally.old }
{
    let mut idle: usize = 0;
    for sweeps in 0..730 {
        idle = sweep(givens, laid, log, tally, idle);
        if idle == 6 {
            return sweeps + 1;
        }
    }
    730
}

// What settling counts.
#[derive(Clone, Copy)]
pub struct Counts {
    // The last one, which removes nothing, is counted too.
    pub sweeps: usize,
    // How many candidates there are less.
    pub removed: usize,
}

// Sweeps until nothing more is removed. The log takes the steps that removed something, and `counts` what each of the six passes removed.
pub fn settle(
    givens: &[u8; 81],
    masks: &mut [u16; 81],
    log: &mut [u8],
    counts: &mut [usize; 6],
) -> Counts
    ensures sweeps_value { result.sweeps ≡ (settle givens.now masks.old).sweeps }
    ensures removed_value { result.removed ≡ removed_by masks.old masks.new }
    ensures masks_after { masks.new ≡ (settle givens.now masks.old).left }
    ensures log_after { log.new ≡ log_after givens.now (settling_instances givens.now masks.old) masks.old log.old }
    ensures counts_after { counts.new ≡ pass_counts givens.now masks.old }
{
    let start = total(*masks);
    let mut laid = LaidMasks::of(masks);
    let mut tally = [0, 0, 0, 0, 0, 0, start];
    let sweeps = sweep_on(&LaidGivens::of(givens), &mut laid, log, &mut tally);
    *masks = laid.masks;
    *counts = [tally[0], tally[1], tally[2], tally[3], tally[4], tally[5]];
    Counts {
        sweeps,
        removed: start - tally[6],
    }
}

// Settling over a lent board, which is checked once, before the first sweep. The log and `counts` are those of `settle`; beside a refusal all that is lent stays as it was.
#[tactic(auto, unfolding(steps::specs::Calls::answer, crate::specs::code::Handed::log_left, crate::specs::code::Handed::counts_left))]
pub fn settle_handed(
    clues: &[i32; 81],
    entries: &[i32; 81],
    masks: &mut [u16; 81],
    log: &mut [u8],
    counts: &mut [usize; 6],
) -> Result<Counts, Stop>
    ensures result_value { answer_of result ≡ map counts_of (answer settling_call (handed clues.now entries.now masks.old)) }
    ensures masks_after { masks.new ≡ masks_left (handed clues.now entries.now masks.old) }
    ensures log_after { log.new ≡ log_left (handed clues.now entries.now masks.old) log.old }
    ensures counts_after { counts.new ≡ counts_left (handed clues.now entries.now masks.old) counts.old }
{
    let givens = givens_of(clues, entries);
    check_given(clues, entries, &givens, masks)?;
    Ok(settle(&givens, masks, log, counts))
}

// What settling a board hands back beside it: its counts, its steps that removed something, and what each of the six passes removed.
#[derive(Clone, Copy)]
pub struct Settled {
    pub counts: Counts,
    pub steps: Steps,
    pub by_pass: [usize; 6],
}

// Sweeps until nothing more is removed, with its steps; beside a refusal the board stays as it was. Who does not want the steps has `settle_handed`.
#[tactic(auto, unfolding(steps::specs::Calls::answer))]
pub fn apply_settling(board: &mut Board) -> Result<Settled, Stop>
    ensures { Settles (board_of board.old) result (board_of board.new) }
{
    let mut log = [0u8; 4376];
    let mut by_pass = [0usize; 6];
    let counts = settle_handed(
        &board.clues,
        &board.entries,
        &mut board.masks,
        &mut log,
        &mut by_pass,
    )?;
    Ok(Settled {
        counts,
        steps: steps_of(&log),
        by_pass,
    })
}
