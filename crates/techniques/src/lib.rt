// The ported techniques (modules 3 to 6), with the original's names: the eliminations over lent givens and masks, where givens are the digit that each
// cell is given, 0 where it is open, and every function is total; and the calls that report singles, which check their board first.
#![tactic(auto)]

ghost use Rattle.std.specs.Prelude.{◌≡◌, cond, ◌||◌, [], ltb};
ghost use Rattle.stops.specs.Answer.{answer_of, map, value_or};
ghost use Rattle.steps.specs.Calls.{naked_singles_call, hidden_singles_call, advanced_call, answer, left, outcome};
ghost use Rattle.steps.specs.Boards.{fresh};
ghost use Rattle.steps.specs.Passes.{changed};
ghost use Rattle.steps.specs.Ported.{naked_pairs};
ghost use Rattle.board.specs.Boards.{board_of, handed};
ghost use Rattle.techniques.specs.Reports.{reports_of};
ghost use Rattle.techniques.specs.Techniques.{Finds};
ghost use Rattle.techniques.specs.code.Pushes.{append, cleared};
ghost use Rattle.techniques.specs.code.Searches.{search_call};

use board::entries::givens_of;
use board::fresh::fresh_masks;
use board::{Board, check_given};
use cells::changed;
use singles::Reports;
use stops::Stop;

pub mod box_lines;
pub mod naked_pairs;
pub mod singles;
pub mod x_wings;

// What a call that reports says: whether there was progress, and its reports.
#[derive(Clone, Copy)]
pub struct Reported {
    pub made: bool,
    pub reports: Reports,
}

// The calls that report singles. Values and not closures: a contract says by the value which call it speaks of.
#[derive(Clone, Copy)]
pub enum Search {
    Naked,
    Hidden,
    Advanced,
}

// A report is progress.
fn any(reports: &Reports) -> bool
    ensures { result ≡ ltb 0 reports.now.count }
{
    0 < reports.count
}

// Whether there are reports, or naked pairs would remove anything.
fn advances(reports: &Reports, givens: &[u8; 81], masks: &[u16; 81]) -> bool
    ensures { result ≡ (ltb 0 reports.now.count || changed masks.now (naked_pairs givens.now masks.now)) }
{
    if any(reports) {
        return true;
    }
    let before = *masks;
    let mut after = before;
    naked_pairs::naked_pairs(givens, &mut after);
    changed(before, after)
}

fn renew(made: bool, givens: &[u8; 81], masks: &mut [u16; 81])
    ensures { masks.new ≡ cond made (fresh givens.now) masks.old }
{
    if made {
        *masks = fresh_masks(givens);
    }
}

// Naked singles, hidden singles, naked pairs: whether there was progress. With any the masks become fresh again.
fn advance_into(givens: &[u8; 81], masks: &mut [u16; 81], reports: &mut Reports) -> bool
    ensures made_value { result ≡ (outcome advanced_call givens.now masks.old).flag }
    ensures reports_after { reports.new ≡ append (outcome advanced_call givens.now masks.old).reports (cleared reports.old) }
    ensures masks_after { masks.new ≡ (outcome advanced_call givens.now masks.old).masks }
{
    singles::singles_into(givens, masks, reports);
    let made = advances(reports, givens, masks);
    renew(made, givens, masks);
    made
}

// What a search leaves of masks that are not checked, its reports in place of those before, and whether there was progress.
fn find_into(
    search: Search,
    givens: &[u8; 81],
    masks: &mut [u16; 81],
    reports: &mut Reports,
) -> bool
    ensures made_value { result ≡ (outcome (search_call search) givens.now masks.old).flag }
    ensures reports_after { reports.new ≡ append (outcome (search_call search) givens.now masks.old).reports (cleared reports.old) }
    ensures masks_after { masks.new ≡ (outcome (search_call search) givens.now masks.old).masks }
{
    match search {
        Search::Naked => {
            reports.clear();
            singles::naked_singles(givens, masks, reports);
            any(reports)
        }
        Search::Hidden => {
            reports.clear();
            singles::hidden_singles(givens, masks, reports);
            any(reports)
        }
        Search::Advanced => advance_into(givens, masks, reports),
    }
}

// A call that reports over a lent board, which is checked first. Its reports stand in place of those before. Beside a refusal there is none, and all
// else that is lent stays as it was.
pub fn report_handed(
    search: Search,
    clues: &[i32; 81],
    entries: &[i32; 81],
    masks: &mut [u16; 81],
    reports: &mut Reports,
) -> Result<bool, Stop>
    ensures answer_value { answer_of result ≡ map (λ o. o.flag) (answer (search_call search) (handed clues.now entries.now masks.old)) }
    ensures reports_after { reports.new ≡ append (value_or [] (map (λ o. o.reports) (answer (search_call search) (handed clues.now entries.now masks.old)))) (cleared reports.old) }
    ensures masks_after { masks.new ≡ (left (handed clues.now entries.now masks.old) (answer (search_call search) (handed clues.now entries.now masks.old))).masks }
{
    reports.clear();
    let givens = givens_of(clues, entries);
    check_given(clues, entries, &givens, masks)?;
    Ok(find_into(search, &givens, masks, reports))
}

pub fn report(search: Search, board: &mut Board) -> Result<Reported, Stop>
    ensures { Finds (search_call search) (board_of board.old) result (board_of board.new) }
{
    let mut reports = Reports::new();
    let made = report_handed(
        search,
        &board.clues,
        &board.entries,
        &mut board.masks,
        &mut reports,
    )?;
    Ok(Reported { made, reports })
}

pub fn apply_naked_singles(board: &mut Board) -> Result<Reported, Stop>
    ensures { Finds naked_singles_call (board_of board.old) result (board_of board.new) }
{
    report(Search::Naked, board)
}

pub fn apply_hidden_singles(board: &mut Board) -> Result<Reported, Stop>
    ensures { Finds hidden_singles_call (board_of board.old) result (board_of board.new) }
{
    report(Search::Hidden, board)
}

pub fn apply_advanced_techniques(board: &mut Board) -> Result<Reported, Stop>
    ensures { Finds advanced_call (board_of board.old) result (board_of board.new) }
{
    report(Search::Advanced, board)
}

// `apply_advanced_techniques` over lent masks that are not checked.
pub fn advance(givens: &[u8; 81], masks: &mut [u16; 81]) -> Reported
    ensures made_value { (result.made ≡ (outcome advanced_call givens.now masks.old).flag) × (result.reports ≡ reports_of (outcome advanced_call givens.now masks.old).reports) }
    ensures masks_after { masks.new ≡ (outcome advanced_call givens.now masks.old).masks }
{
    let mut reports = Reports::new();
    let made = advance_into(givens, masks, &mut reports);
    Reported { made, reports }
}
