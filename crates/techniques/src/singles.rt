// Singles (module 6): open cells with one candidate, and units with one open cell for a digit. They report (cell, digit) and change no mask.
ghost use Rattle.std.specs.Prelude.{◌≡◌, [], ◌++◌, ◌+◌, ◌<◌, ◌≤◌, pos};
ghost use Rattle.candidates.specs.Sets.{only_of, digit_or0};
ghost use Rattle.steps.specs.Singles.{naked_singles, hidden_singles};
ghost use Rattle.techniques.specs.Reports.{reports_of};
ghost use Rattle.techniques.specs.code.Pushes.{pushed, append, cleared};
ghost use Rattle.techniques.specs.code.Singles.{hidden_in, once_of};

use candidates::{SingleCandidate, SudokuCandidateSet, masks};
use cells::unions::{join_all, shared};
use cells::{open_mask, places_of, unit_masks};
use grid::unit_cell;

// The reported cells and digits, the first first, and how many; unused entries are 0. No call has more than 324.
// A fixed buffer: the engine has no heap. Cells and digits stand apart, as the definition of the reports has them (specs/Reports).
#[derive(Clone, Copy)]
pub struct Reports {
    pub cells: [u8; 324],
    pub digits: [u8; 324],
    pub count: usize,
}

impl Reports {
    pub fn new() -> Self
        ensures { result ≡ reports_of [] }
    {
        Self {
            cells: [0u8; 324],
            digits: [0u8; 324],
            count: 0,
        }
    }

    // The entries stay as they are.
    pub(crate) fn clear(&mut self)
        ensures { self.new ≡ cleared self.old }
    {
        self.count = 0;
    }

    // One more report. That there is room is known before, so that no push asks for it.
    fn push(&mut self, cell: u8, digit: u8)
        requires { self.old.count < 324 }
        ensures after { self.new ≡ pushed self.old cell digit }
        ensures counted { self.new.count ≡ self.old.count + 1 }
    {
        self.cells[self.count] = cell;
        self.digits[self.count] = digit;
        self.count += 1;
    }
}

// The digit of a mask that holds just one, else 0.
fn only_digit(mask: u16) -> u8
    ensures { pos result ≡ digit_or0 (only_of mask) }
{
    match (SudokuCandidateSet { mask }).single_candidate() {
        SingleCandidate::Digit(digit) => digit as u8,
        SingleCandidate::Empty => 0,
        SingleCandidate::Several => 0,
    }
}

// Open cells with one candidate, rising, after what is reported.
pub fn naked_singles(givens: &[u8; 81], masks: &[u16; 81], reports: &mut Reports)
    requires { reports.old.count + 81 ≤ 324 }
    ensures reports_after { reports.new ≡ append (naked_singles givens.now masks.now) reports.old }
    ensures few { reports.new.count ≤ reports.old.count + 81 }
{
    for cell in 0..81 {
        let digit = only_digit(open_mask(givens, masks, cell));
        if digit != 0 {
            reports.push(cell as u8, digit);
        }
    }
}

// The digits that just one of the masks holds.
fn held_once(nine: &[u16; 9]) -> u16
    ensures { result ≡ once_of nine.now }
{
    masks::lose(join_all(nine), shared(nine))
}

// The digits that one open cell of the unit holds, rising.
fn hidden_in(givens: &[u8; 81], masks: &[u16; 81], unit: usize, reports: &mut Reports)
    requires { reports.old.count + 9 ≤ 324 }
    ensures reports_after { reports.new ≡ append (hidden_in givens.now masks.now unit) reports.old }
    ensures few { reports.new.count ≤ reports.old.count + 9 }
{
    let nine = unit_masks(givens, masks, unit);
    let once = held_once(&nine);
    for digit in 0..9 {
        if masks::has_digit(once, digit) {
            let place = masks::lowest_digit(places_of(&nine, digit));
            let cell = unit_cell(unit, place);
            reports.push(cell as u8, (digit + 1) as u8);
        }
    }
}

// The same for rows, columns and boxes, repeats kept.
pub fn hidden_singles(givens: &[u8; 81], masks: &[u16; 81], reports: &mut Reports)
    requires { reports.old.count + 243 ≤ 324 }
    ensures { reports.new ≡ append (hidden_singles givens.now masks.now) reports.old }
{
    for unit in 0..27 {
        hidden_in(givens, masks, unit, reports);
    }
}

// Naked singles and then hidden ones, in place of what was reported before.
pub fn singles_into(givens: &[u8; 81], masks: &[u16; 81], reports: &mut Reports)
    ensures { reports.new ≡ append (naked_singles givens.now masks.now ++ hidden_singles givens.now masks.now) (cleared reports.old) }
{
    reports.clear();
    naked_singles(givens, masks, reports);
    hidden_singles(givens, masks, reports);
}

// The same as a value.
pub fn singles(givens: &[u8; 81], masks: &[u16; 81]) -> Reports
    ensures { result ≡ reports_of (naked_singles givens.now masks.now ++ hidden_singles givens.now masks.now) }
{
    let mut reports = Reports::new();
    singles_into(givens, masks, &mut reports);
    reports
}
