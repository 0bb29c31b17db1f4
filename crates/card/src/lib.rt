// The card of a grid (module 15): what the program `scorecard` prints of the bytes that it read. Only the reader refuses a text: the board that it
// opens is fresh, and no call would refuse that or what settling leaves of it.
#![tactic(auto)]

ghost use Rattle.std.specs.Prelude.{◌≡◌, ◌≤◌, length};
ghost use Rattle.stops.specs.Answer.{answer_of, map};
ghost use Rattle.steps.specs.Boards.{givens_of, fresh};
ghost use Rattle.steps.specs.Difficulty.{pass_counts};
ghost use Rattle.card.specs.Cards.{card_bytes, card_for, card_lines, card_of, length_without, refusal_line};
ghost use Rattle.output.specs.Lent.{over};

use board::clues::givens_of;
use board::count_clues;
use board::fresh::fresh_masks;
use board::verdicts::verdict_of;
use layout::{Card, card_lines, refusal_lines};
use output::Pen;
use passes::settle;
use stops::Stop;
use techniques::singles::singles;
use text::parse_string;

pub mod layout;
pub mod lines;

// The length without one final byte of this kind.
pub fn length_without(input: &[u8], last: u8) -> usize
    ensures { result ≡ length_without last input.now }
{
    if input.last() == Some(&last) {
        return input.len() - 1;
    }
    input.len()
}

// The card of clues, and what each pass removed in the settling that it is of.
pub fn score(clues: &[i32; 81], tally: &mut [usize; 6]) -> Card
    ensures { (result ≡ card_for clues.now) × (tally.new ≡ pass_counts (givens_of clues.now) (fresh (givens_of clues.now))) }
{
    let givens = givens_of(clues);
    let mut masks = fresh_masks(&givens);
    let reported = singles(&givens, &masks).count;
    let mut none: [u8; 0] = [];
    let counts = settle(&givens, &mut masks, &mut none, tally);
    Card {
        clues: count_clues(clues),
        reported,
        sweeps: counts.sweeps,
        removed: counts.removed,
        verdict: verdict_of(&masks),
        masks,
    }
}

fn card_of(clues: &[i32; 81]) -> Card
    ensures { result ≡ card_for clues.now }
{
    let mut tally = [0usize; 6];
    score(clues, &mut tally)
}

// The card of the grid in `input`, in the first lent bytes; a refusal leaves them as they are.
pub fn write_card(input: &[u8], out: &mut [u8; 256]) -> Result<usize, Stop>
    ensures { (answer_of result ≡ map (λ card. length (card_bytes card)) (card_of input.now)) × (out.new ≡ over (card_lines (card_of input.now)) out.old) }
{
    let length = length_without(input, b'\n');
    let clues = parse_string(&input[..length])?;
    let card = card_of(&clues);
    let mut lines = Pen::new(out);
    card_lines(&mut lines, &card);
    Ok(lines.end)
}

// The line of a refusal, in the first lent bytes, and how many it has; none for an answer that is no refusal.
pub fn write_refusal(answer: Result<usize, Stop>, out: &mut [u8; 256]) -> usize
    ensures { (result ≡ length (refusal_line (answer_of answer))) × (out.new ≡ over (refusal_line (answer_of answer)) out.old) × (result ≤ 256) }
{
    match answer {
        Err(stop) => {
            let mut lines = Pen::new(out);
            refusal_lines(&mut lines, stop);
            lines.end
        }
        Ok(_) => 0,
    }
}
