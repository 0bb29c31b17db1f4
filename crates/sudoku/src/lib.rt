// What other languages call: the engine on numbers and arrays. host/README.md is the page for callers.
// Nothing is owed by a caller beyond the lengths of what it lends, and each answer fixes all that was lent.
#![tactic(auto)]

ghost use Rattle.std.specs.Prelude.{◌≡◌};
ghost use Rattle.grid.specs.Fillings.{verified};
ghost use Rattle.steps.specs.Entries.{enter, rub_out};
ghost use Rattle.board.specs.Boards.{handed};
ghost use Rattle.sudoku.specs.Boards.{asked, check_code, kept_check, open_code, open_masks, read_clues, read_code};
ghost use Rattle.sudoku.specs.Codes.{abi_number};
ghost use Rattle.sudoku.specs.Entries.{pencil_code, pencil_entries, pencil_masks};
ghost use Rattle.sudoku.specs.Ratings.{difficulty_code};
ghost use Rattle.sudoku.specs.Records.{move_code, moved_record, record_clues, record_code, record_entries, record_masks, record_read_code, written_record};
ghost use Rattle.sudoku.specs.Rounds.{trial_clues, trial_code};
ghost use Rattle.sudoku.specs.Sets.{set_call, next_call};
ghost use Rattle.sudoku.specs.Settlings.{settle_code, settle_counts, settle_masks, settle_steps};
ghost use Rattle.sudoku.specs.Sheets.{sheet_clues, sheet_code, sheet_read_code, written_sheet};
ghost use Rattle.sudoku.specs.StepLists.{checked_code, checked_masks};
ghost use Rattle.sudoku.specs.Steps.{run_code, run_masks, step_code, step_masks, step_reports};
ghost use Rattle.sudoku.specs.Texts.{card_code, text_code, written_card, written_text};

use board::Board;

mod accessors;
mod arrays;
mod codes;
mod moves;
mod ratings;
mod sets;
mod settlings;
mod step_calls;

// Which parameters the exports have: a caller made for another number must not call them.
#[unsafe(no_mangle)]
pub extern "C" fn sudoku_abi() -> u32
    ensures { result ≡ abi_number }
{
    5
}

// Whether 81 numbers are a correct filling.
#[unsafe(no_mangle)]
pub extern "C" fn sudoku_verify(grid: &[i32; 81]) -> bool
    ensures { result ≡ verified grid.now }
{
    grid::verify_solution(grid)
}

// A call of the candidate set by its number, on a mask and a digit.
#[unsafe(no_mangle)]
pub extern "C" fn sudoku_set(call: u8, mask: u16, digit: i32, answer: &mut [i64; 4])
    ensures { answer.new ≡ set_call call mask digit }
{
    *answer = sets::set_call(call, mask, digit);
}

// One step of an iterator over a mask, from a place on.
#[unsafe(no_mangle)]
pub extern "C" fn sudoku_next(mask: u16, place: u8, answer: &mut [i64; 4])
    ensures { answer.new ≡ next_call mask place }
{
    *answer = sets::next_call(mask, place);
}

// The clues of a text.
#[unsafe(no_mangle)]
pub extern "C" fn sudoku_read(text: &[u8], clues: &mut [i32; 81], answer: &mut [i64; 4])
    ensures { (answer.new ≡ read_code text.now) × (clues.new ≡ read_clues text.now clues.old) }
{
    arrays::put_grid(text::parse_string(text), clues, answer);
}

// The text of 81 clues.
#[unsafe(no_mangle)]
pub extern "C" fn sudoku_write_text(clues: &[i32; 81], text: &mut [u8], answer: &mut [i64; 4])
    ensures { (answer.new ≡ text_code clues.now text.old) × (text.new ≡ written_text clues.now text.old) }
{
    *answer = codes::of_counted(text::write_text(clues, text));
}

// The clues of a pasted sheet.
#[unsafe(no_mangle)]
pub extern "C" fn sudoku_read_sheet(sheet: &[u8], clues: &mut [i32; 81], answer: &mut [i64; 4])
    ensures { (answer.new ≡ sheet_read_code sheet.now) × (clues.new ≡ sheet_clues sheet.now clues.old) }
{
    arrays::put_grid(text::sheets::parse_sheet(sheet), clues, answer);
}

// The canonical sheet of 81 clues.
#[unsafe(no_mangle)]
pub extern "C" fn sudoku_write_sheet(clues: &[i32; 81], sheet: &mut [u8], answer: &mut [i64; 4])
    ensures { (answer.new ≡ sheet_code clues.now sheet.old) × (sheet.new ≡ written_sheet clues.now sheet.old) }
{
    *answer = codes::of_counted(text::sheets::write_sheet(clues, sheet));
}

// The fresh masks of 81 clues.
#[unsafe(no_mangle)]
pub extern "C" fn sudoku_open(clues: &[i32; 81], masks: &mut [u16; 81], answer: &mut [i64; 4])
    ensures { (answer.new ≡ open_code clues.now) × (masks.new ≡ open_masks clues.now masks.old) }
{
    match Board::new(*clues) {
        Err(stop) => *answer = codes::of_stop(stop, 0),
        Ok(board) => {
            *answer = codes::of_given(arrays::clue_number(&board.clues), 0);
            *masks = board.masks;
        }
    }
}

// A question to a board by its number; `cell` is the cell whose mask is asked for.
#[unsafe(no_mangle)]
pub extern "C" fn sudoku_ask(
    question: u8,
    cell: u32,
    clues: &[i32; 81],
    entries: &[i32; 81],
    masks: &[u16; 81],
    answer: &mut [i64; 4],
)
    ensures { answer.new ≡ asked question (handed clues.now entries.now masks.now) cell }
{
    let board = Board {
        clues: *clues,
        entries: *entries,
        masks: *masks,
    };
    *answer = accessors::ask(question, &board, cell);
}

// The printed clues of a board.
#[unsafe(no_mangle)]
pub extern "C" fn sudoku_original_puzzle(
    clues: &[i32; 81],
    entries: &[i32; 81],
    masks: &[u16; 81],
    puzzle: &mut [i32; 81],
    answer: &mut [i64; 4],
)
    ensures { (answer.new ≡ check_code (handed clues.now entries.now masks.now)) × (puzzle.new ≡ kept_check (handed clues.now entries.now masks.now) clues.now puzzle.old) }
{
    let board = Board {
        clues: *clues,
        entries: *entries,
        masks: *masks,
    };
    arrays::put(board.original_puzzle(), puzzle, answer);
}

// The masks of a board.
#[unsafe(no_mangle)]
pub extern "C" fn sudoku_get_candidates(
    clues: &[i32; 81],
    entries: &[i32; 81],
    masks: &[u16; 81],
    candidates: &mut [u16; 81],
    answer: &mut [i64; 4],
)
    ensures { (answer.new ≡ check_code (handed clues.now entries.now masks.now)) × (candidates.new ≡ kept_check (handed clues.now entries.now masks.now) masks.now candidates.old) }
{
    let board = Board {
        clues: *clues,
        entries: *entries,
        masks: *masks,
    };
    arrays::put(board.get_candidates(), candidates, answer);
}

// A board call by its step number.
#[unsafe(no_mangle)]
pub extern "C" fn sudoku_step(
    step: u8,
    clues: &[i32; 81],
    entries: &[i32; 81],
    masks: &mut [u16; 81],
    reports: &mut [u8; 648],
    answer: &mut [i64; 4],
)
    ensures { (answer.new ≡ step_code step (handed clues.now entries.now masks.old)) × (masks.new ≡ step_masks step (handed clues.now entries.now masks.old)) × (reports.new ≡ step_reports step (handed clues.now entries.now masks.old) reports.old) }
{
    step_calls::step(step, clues, entries, masks, reports, answer);
}

// A digit entered in a cell of a board.
#[unsafe(no_mangle)]
pub extern "C" fn sudoku_enter(
    cell: u32,
    digit: i32,
    clues: &[i32; 81],
    entries: &mut [i32; 81],
    masks: &mut [u16; 81],
    answer: &mut [i64; 4],
)
    ensures { (answer.new ≡ pencil_code (enter cell digit) (handed clues.now entries.old masks.old)) × (entries.new ≡ pencil_entries (enter cell digit) (handed clues.now entries.old masks.old)) × (masks.new ≡ pencil_masks (enter cell digit) (handed clues.now entries.old masks.old)) }
{
    let mut board = Board {
        clues: *clues,
        entries: *entries,
        masks: *masks,
    };
    match board::entries::enter(&mut board, cell, digit) {
        Err(stop) => *answer = codes::of_stop(stop, 0),
        Ok(()) => {
            *answer = codes::of_given(0, 0);
            *entries = board.entries;
            *masks = board.masks;
        }
    }
}

// The entry of a cell of a board rubbed out.
#[unsafe(no_mangle)]
pub extern "C" fn sudoku_rub_out(
    cell: u32,
    clues: &[i32; 81],
    entries: &mut [i32; 81],
    masks: &mut [u16; 81],
    answer: &mut [i64; 4],
)
    ensures { (answer.new ≡ pencil_code (rub_out cell) (handed clues.now entries.old masks.old)) × (entries.new ≡ pencil_entries (rub_out cell) (handed clues.now entries.old masks.old)) × (masks.new ≡ pencil_masks (rub_out cell) (handed clues.now entries.old masks.old)) }
{
    let mut board = Board {
        clues: *clues,
        entries: *entries,
        masks: *masks,
    };
    match board::entries::rub_out(&mut board, cell) {
        Err(stop) => *answer = codes::of_stop(stop, 0),
        Ok(()) => {
            *answer = codes::of_given(0, 0);
            *entries = board.entries;
            *masks = board.masks;
        }
    }
}

// A list of steps from the fresh board of clues and entries.
#[unsafe(no_mangle)]
pub extern "C" fn sudoku_run(
    steps: &[u8],
    clues: &[i32; 81],
    entries: &[i32; 81],
    masks: &mut [u16; 81],
    answer: &mut [i64; 4],
)
    ensures { (answer.new ≡ run_code clues.now entries.now steps.now) × (masks.new ≡ run_masks clues.now entries.now steps.now masks.old) }
{
    step_calls::put_run(calls::replay(*clues, *entries, steps), masks, answer);
}

// Settling, the steps of it that removed something, six bytes each, and what each of the six wide passes removed.
#[unsafe(no_mangle)]
pub extern "C" fn sudoku_settle(
    clues: &[i32; 81],
    entries: &[i32; 81],
    masks: &mut [u16; 81],
    steps: &mut [u8; 4374],
    counts: &mut [usize; 6],
    answer: &mut [i64; 4],
)
    ensures { (answer.new ≡ settle_code (handed clues.now entries.now masks.old)) × (masks.new ≡ settle_masks (handed clues.now entries.now masks.old)) × (steps.new ≡ settle_steps (handed clues.now entries.now masks.old) steps.old) × (counts.new ≡ settle_counts (handed clues.now entries.now masks.old) counts.old) }
{
    settlings::settle(clues, entries, masks, steps, counts, answer);
}

// A list of setters' steps, six bytes each, checked from the fresh board of clues and entries.
#[unsafe(no_mangle)]
pub extern "C" fn sudoku_check_steps(
    steps: &[u8],
    clues: &[i32; 81],
    entries: &[i32; 81],
    masks: &mut [u16; 81],
    answer: &mut [i64; 4],
)
    ensures { (answer.new ≡ checked_code (handed clues.now entries.now masks.old) steps.now) × (masks.new ≡ checked_masks (handed clues.now entries.now masks.old) steps.now) }
{
    let mut board = Board {
        clues: *clues,
        entries: *entries,
        masks: *masks,
    };
    match step_lists::check_steps(&mut board, steps) {
        Err(stop) => *answer = codes::of_stop(stop, 0),
        Ok(()) => {
            *answer = codes::of_given(0, 0);
            *masks = board.masks;
        }
    }
}

// The difficulty figure of the fresh board of clues and entries.
#[unsafe(no_mangle)]
pub extern "C" fn sudoku_difficulty(
    clues: &[i32; 81],
    entries: &[i32; 81],
    masks: &[u16; 81],
    answer: &mut [i64; 4],
)
    ensures { answer.new ≡ difficulty_code (handed clues.now entries.now masks.now) }
{
    let board = Board {
        clues: *clues,
        entries: *entries,
        masks: *masks,
    };
    *answer = ratings::of_rating(difficulty::difficulty(&board));
}

// The record of a board.
#[unsafe(no_mangle)]
pub extern "C" fn sudoku_write_record(
    clues: &[i32; 81],
    entries: &[i32; 81],
    masks: &[u16; 81],
    bytes: &mut [u8],
    answer: &mut [i64; 4],
)
    ensures { (answer.new ≡ record_code (handed clues.now entries.now masks.now) bytes.old) × (bytes.new ≡ written_record (handed clues.now entries.now masks.now) bytes.old) }
{
    let board = Board {
        clues: *clues,
        entries: *entries,
        masks: *masks,
    };
    *answer = codes::of_counted(record::write_record(&board, bytes));
}

// The board of a record.
#[unsafe(no_mangle)]
pub extern "C" fn sudoku_read_record(
    bytes: &[u8],
    clues: &mut [i32; 81],
    entries: &mut [i32; 81],
    masks: &mut [u16; 81],
    answer: &mut [i64; 4],
)
    ensures { (answer.new ≡ record_read_code bytes.now) × (clues.new ≡ record_clues bytes.now clues.old) × (entries.new ≡ record_entries bytes.now entries.old) × (masks.new ≡ record_masks bytes.now masks.old) }
{
    match record::read_record(bytes) {
        Err(stop) => *answer = codes::of_stop(stop, 0),
        Ok(board) => {
            *answer = codes::of_given(arrays::clue_number(&board.clues), 0);
            *clues = board.clues;
            *entries = board.entries;
            *masks = board.masks;
        }
    }
}

// An old record in the new form, or a new one back in the old form.
#[unsafe(no_mangle)]
pub extern "C" fn sudoku_move_record(
    back: bool,
    bytes: &[u8],
    moved: &mut [u8],
    answer: &mut [i64; 4],
)
    ensures { (answer.new ≡ move_code back bytes.now moved.old) × (moved.new ≡ moved_record back bytes.now moved.old) }
{
    *answer = codes::of_counted(moves::move_either(back, bytes, moved));
}

// A trial round of a solution.
#[unsafe(no_mangle)]
pub extern "C" fn sudoku_trial_round(
    start: u32,
    percentage: u32,
    solution: &[i32; 81],
    clues: &mut [i32; 81],
    answer: &mut [i64; 4],
)
    ensures { (answer.new ≡ trial_code start percentage solution.now) × (clues.new ≡ trial_clues start percentage solution.now clues.old) }
{
    arrays::put_grid(
        trial_rounds::trial_round(start, percentage, solution),
        clues,
        answer,
    );
}

// The card of a text.
#[unsafe(no_mangle)]
pub extern "C" fn sudoku_card(input: &[u8], card: &mut [u8; 256], answer: &mut [i64; 4])
    ensures { (answer.new ≡ card_code input.now) × (card.new ≡ written_card input.now card.old) }
{
    *answer = codes::of_counted(card::write_card(input, card));
}
