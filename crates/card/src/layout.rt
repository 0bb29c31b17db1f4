// A card and a refusal as lines.
ghost use Rattle.std.specs.Prelude.{◌≡◌, ◌≤◌, length};
ghost use Rattle.output.specs.code.Tapes.{append};
ghost use Rattle.output.specs.code.Pens.{writes};
ghost use Rattle.card.specs.Cards.{card_bytes, verdict_word};
ghost use Rattle.card.specs.Layout.{line_of, verdict_label, grid_label, grid_bytes, refusal_bytes};

use crate::lines::{LinesPen, number_line, push_grid, push_signed};
use board::Verdict;
use stops::Stop;

// What a card says; `masks` are those of the settled board.
#[derive(Clone, Copy)]
pub struct Card {
    pub clues: usize,
    pub reported: usize,
    pub sweeps: usize,
    pub removed: usize,
    pub verdict: Verdict,
    pub masks: [u16; 81],
}

pub fn push_verdict(lines: &mut LinesPen, verdict: Verdict)
    ensures { lines.new ≡ writes (append 256 (verdict_word verdict)) lines.old }
{
    match verdict {
        Verdict::Dead => lines.push_word(b"dead"),
        Verdict::Finished => lines.push_word(b"finished"),
        Verdict::Open => lines.push_word(b"open"),
    }
}

pub fn verdict_line(lines: &mut LinesPen, verdict: Verdict)
    ensures { lines.new ≡ writes (append 256 (line_of verdict_label (verdict_word verdict))) lines.old }
{
    lines.push_word(b"verdict ");
    push_verdict(lines, verdict);
    lines.push(b'\n');
}

fn grid_line(lines: &mut LinesPen, masks: &[u16; 81])
    ensures { lines.new ≡ writes (append 256 (line_of grid_label (grid_bytes masks.now))) lines.old }
{
    lines.push_word(b"line ");
    push_grid(lines, masks);
    lines.push(b'\n');
}

pub fn card_lines(lines: &mut LinesPen, card: &Card)
    ensures { lines.new ≡ writes (append 256 (card_bytes card.now)) lines.old }
{
    number_line(lines, b"clues ", card.clues);
    number_line(lines, b"reported ", card.reported);
    number_line(lines, b"sweeps ", card.sweeps);
    number_line(lines, b"removed ", card.removed);
    verdict_line(lines, card.verdict);
    grid_line(lines, &card.masks);
}

// There is room for every stop.
pub fn refusal_lines(lines: &mut LinesPen, stop: Stop)
    ensures { (lines.new ≡ writes (append 256 (refusal_bytes stop)) lines.old) × (length (refusal_bytes stop) ≤ 256) }
{
    lines.push_word(b"refused ");
    lines.push_number(stops::number(stop) as usize);
    lines.push(b' ');
    push_signed(lines, stops::detail(stop));
    lines.push(b'\n');
}
