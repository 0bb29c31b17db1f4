// The board: 81 clues, 81 entries and 81 masks, opened, checked and judged (modules 2 and 13).
// A call that is handed a board checks it first, and hands on the check's stop.
#![tactic(auto)]

ghost use Rattle.std.specs.Prelude.{◌≡◌};
ghost use Rattle.stops.specs.Answer.{answer_of, map, passing, stop_at, then};
ghost use Rattle.stops.specs.declared.Stop.TheVariants.{BadClue, BadEntry, BadMask};
ghost use Rattle.grid.specs.Cells.{cells};
ghost use Rattle.steps.specs.Boards.{givens_of, together};
ghost use Rattle.steps.specs.Calls.{answer, check_of, first_bad_clue, first_bad_entry, left, opened_with, update_candidates};
ghost use Rattle.board.specs.Boards.{board_of, cell_mask, clue_count, handed, no_board, open_of, open_with_of, verdict_of};
ghost use Rattle.board.specs.code.Checks.{first_misfit, is_found, misfit_of};

use candidates::masks;
use stops::Stop;

pub mod clues;
pub mod entries;
pub mod fresh;
pub mod verdicts;

// A board. A clue is 0 where its cell is open, an entry where it has none; a mask holds the cell's candidates.
#[derive(Clone, Copy)]
pub struct Board {
    pub clues: [i32; 81],
    pub entries: [i32; 81],
    pub masks: [u16; 81],
}

// What the masks of a board say of it.
#[derive(Clone, Copy)]
pub enum Verdict {
    Dead,
    Finished,
    Open,
}

// Whether a mask holds what the fresh one lacks, or stands in a clue cell and differs from it.
fn misfits(mask: u16, fresh: u16, given: u8) -> bool
    ensures { result ≡ misfit_of mask fresh given }
{
    if given == 0 {
        return masks::lose(mask, fresh) != 0;
    }
    mask != fresh
}

fn any_misfit(givens: &[u8; 81], fresh: &[u16; 81], masks: &[u16; 81]) -> bool
    ensures { result ≡ is_found (first_misfit givens.now fresh.now masks.now) }
{
    let mut any = false;
    for cell in 0..81 {
        any = any | misfits(masks[cell], fresh[cell], givens[cell]);
    }
    any
}

// Stop 9 with its first cell, beside the fresh masks.
fn check_masks(givens: &[u8; 81], fresh: &[u16; 81], masks: &[u16; 81]) -> Result<(), Stop>
    ensures { answer_of result ≡ stop_at BadMask (first_misfit givens.now fresh.now masks.now) }
{
    if !any_misfit(givens, fresh, masks) {
        return Ok(());
    }
    for cell in 0..81 {
        if misfits(masks[cell], fresh[cell], givens[cell]) {
            return Err(Stop::BadMask(cell as i64));
        }
    }
    Ok(())
}

// The check beside the givens and the fresh masks of clues and entries.
fn check_beside(
    clues: &[i32; 81],
    entries: &[i32; 81],
    givens: &[u8; 81],
    fresh: &[u16; 81],
    masks: &[u16; 81],
) -> Result<(), Stop>
    ensures { answer_of result ≡ then (stop_at BadClue (first_bad_clue clues.now)) (λ _. then (stop_at BadEntry (first_bad_entry clues.now entries.now)) (λ _. stop_at BadMask (first_misfit givens.now fresh.now masks.now))) }
{
    clues::check_clues(clues)?;
    entries::check_entries(clues, entries)?;
    check_masks(givens, fresh, masks)
}

// The check of a handed board whose givens are worked out already: stop 3, then stop 8, then stop 9, each with its first cell.
pub fn check_given(
    clues: &[i32; 81],
    entries: &[i32; 81],
    givens: &[u8; 81],
    masks: &[u16; 81],
) -> Result<(), Stop>
    requires { givens.now ≡ givens_of (together clues.now entries.now) }
    ensures { answer_of result ≡ check_of (handed clues.now entries.now masks.now) }
{
    let fresh = fresh::fresh_masks(givens);
    check_beside(clues, entries, givens, &fresh, masks)
}

// The check of a handed board.
pub fn check(clues: &[i32; 81], entries: &[i32; 81], masks: &[u16; 81]) -> Result<(), Stop>
    ensures { answer_of result ≡ check_of (handed clues.now entries.now masks.now) }
{
    let givens = entries::givens_of(clues, entries);
    check_given(clues, entries, &givens, masks)
}

// How many cells have a clue.
pub fn count_clues(clues: &[i32; 81]) -> usize
    ensures { result ≡ clue_count (givens_of clues.now) cells }
{
    let mut count: u32 = 0;
    for cell in 0..81 {
        count += (clues::given_digit(clues[cell]) != 0) as u32;
    }
    count as usize
}

// The mask of a cell; stop 5 above cell 80.
fn mask_of(masks: &[u16; 81], cell: u32) -> Result<u16, Stop>
    ensures { answer_of result ≡ cell_mask masks.now cell }
{
    if 80 < cell {
        return Err(Stop::NoCell(cell));
    }
    Ok(masks[cell as usize])
}

impl Board {
    // No clue, no entry and no candidate in any cell.
    pub fn zeros() -> Self
        ensures { board_of result ≡ no_board }
    {
        Self {
            clues: [0; 81],
            entries: [0; 81],
            masks: [0; 81],
        }
    }

    // Clues, no entries and fresh masks. Clues that contradict each other are accepted.
    #[tactic(auto, unfolding(crate::specs::Boards::open_of))]
    pub fn new(clues: [i32; 81]) -> Result<Self, Stop>
        ensures { map board_of (answer_of result) ≡ open_of clues }
    {
        clues::check_clues(&clues)?;
        Ok(entries::fresh_board(clues, [0; 81]))
    }

    // Clues, entries and fresh masks: stop 3, then stop 8.
    pub fn with_entries(clues: [i32; 81], entries: [i32; 81]) -> Result<Self, Stop>
        ensures { map board_of (answer_of result) ≡ open_with_of clues entries }
    {
        clues::check_clues(&clues)?;
        entries::check_entries(&clues, &entries)?;
        Ok(entries::fresh_board(clues, entries))
    }

    // The check of the board.
    fn check(&self) -> Result<(), Stop>
        ensures { answer_of result ≡ check_of (board_of self.now) }
    {
        check(&self.clues, &self.entries, &self.masks)
    }

    // Fresh masks again.
    pub fn update_candidates(&mut self) -> Result<(), Stop>
        ensures told { answer_of result ≡ check_of (board_of self.old) }
        ensures left { board_of self.new ≡ left (board_of self.old) (answer update_candidates (board_of self.old)) }
    {
        let givens = entries::givens_of(&self.clues, &self.entries);
        let fresh = fresh::fresh_masks(&givens);
        check_beside(&self.clues, &self.entries, &givens, &fresh, &self.masks)?;
        self.masks = fresh;
        Ok(())
    }

    // The printed clues alone.
    pub fn original_puzzle(&self) -> Result<[i32; 81], Stop>
        ensures { answer_of result ≡ passing (check_of (board_of self.now)) self.now.clues }
    {
        self.check()?;
        Ok(self.clues)
    }

    pub fn get_candidates(&self) -> Result<[u16; 81], Stop>
        ensures { answer_of result ≡ passing (check_of (board_of self.now)) self.now.masks }
    {
        self.check()?;
        Ok(self.masks)
    }

    // How many clues are printed.
    pub fn clue_count(&self) -> Result<usize, Stop>
        ensures { answer_of result ≡ passing (check_of (board_of self.now)) (clue_count (givens_of self.now.clues) cells) }
    {
        self.check()?;
        Ok(count_clues(&self.clues))
    }

    // The mask of one cell by its number.
    pub fn cell_mask(&self, cell: u32) -> Result<u16, Stop>
        ensures { answer_of result ≡ then (check_of (board_of self.now)) (λ _. cell_mask self.now.masks cell) }
    {
        self.check()?;
        mask_of(&self.masks, cell)
    }

    pub fn verdict(&self) -> Result<Verdict, Stop>
        ensures { answer_of result ≡ passing (check_of (board_of self.now)) (verdict_of self.now.masks) }
    {
        self.check()?;
        Ok(verdicts::verdict_of(&self.masks))
    }
}
