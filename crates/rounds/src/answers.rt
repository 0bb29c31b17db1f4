// The check of a printed answer: is it full, does it keep the grid's clues, is it correct.
ghost use Rattle.std.specs.Prelude.{◌≡◌, take};
ghost use Rattle.grid.specs.Fillings.{verified};
ghost use Rattle.text.specs.Texts.{clues_of};
ghost use Rattle.rounds.specs.Answers.{is_numeral, is_full, is_broken, first_broken, judged, answer_check, check_of};
ghost use Rattle.rounds.specs.code.Kept.{answer_after};

use grid::verify_solution;
use text::{byte_at, clues_of};

// What is said of an answer.
#[derive(Clone, Copy)]
pub enum Checked {
    NoAnswer,
    Wrong,
    // The first cell whose clue the answer breaks.
    Clue(usize),
    Right,
}

fn is_numeral(byte: u8) -> bool
    ensures { result ≡ is_numeral byte }
{
    matches!(byte, b'1'..=b'9')
}

fn is_full(answer: &[u8]) -> bool
    ensures { result ≡ is_full answer.now }
{
    if answer.len() != 81 {
        return false;
    }
    for cell in 0..81 {
        if !is_numeral(byte_at(answer, cell)) {
            return false;
        }
    }
    true
}

// Whether a byte of the grid is a digit, and that of the answer another.
fn is_broken(clue: u8, digit: u8) -> bool
    ensures { result ≡ is_broken clue digit }
{
    digit != clue && is_numeral(clue)
}

// The clues in their order, then the verifier.
fn judge(grid: &[u8], answer: &[u8]) -> Checked
    ensures { result ≡ judged (first_broken grid.now answer.now) (verified (clues_of answer.now)) }
{
    for cell in 0..81 {
        if is_broken(byte_at(grid, cell), byte_at(answer, cell)) {
            return Checked::Clue(cell);
        }
    }
    let digits = clues_of(answer);
    if verify_solution(&digits) {
        return Checked::Right;
    }
    Checked::Wrong
}

pub fn check_answer(grid: &[u8], answer: &[u8]) -> Checked
    ensures { result ≡ answer_check grid.now answer.now }
{
    if !is_full(answer) {
        return Checked::Wrong;
    }
    judge(grid, answer)
}

// The answer in a text whose grid has 81 bytes.
pub fn check_text(text: &[u8]) -> Checked
    ensures { result ≡ check_of (take 81 text.now) (answer_after text.now) }
{
    if 81 < text.len() {
        return check_answer(&text[..81], &text[82..]);
    }
    Checked::NoAnswer
}
