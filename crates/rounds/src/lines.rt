// An output line as a function of an input line: of its first bytes, those that are kept, and of the length of its grid.
ghost use Rattle.std.specs.Prelude.{◌≡◌, []};
ghost use Rattle.output.specs.code.Tapes.{append};
ghost use Rattle.output.specs.code.Pens.{writes};
ghost use Rattle.rounds.specs.Rounds.{outcome_bytes};
ghost use Rattle.rounds.specs.Summaries.{tallied};
ghost use Rattle.rounds.specs.code.Kept.{clues_outcome, scored_from, outcome_from};

use crate::answers::{Checked, check_text};
use crate::fields::write_score;
use crate::tallies::{Tally, tally_grid, tally_refused};
use board::clues::givens_of;
use card::layout::refusal_lines;
use card::lines::{LinesPen, number_line};
use card::{length_without, score};
use difficulty::rating_of;
use text::parse_string;

fn score_clues(clues: &[i32; 81], check: Checked, out: &mut LinesPen, tally: &mut Tally)
    ensures { (out.new ≡ writes (append 256 (outcome_bytes [] (clues_outcome clues.now check))) out.old) × (tally.new ≡ tallied (clues_outcome clues.now check) tally.old) }
{
    let mut counts = [0usize; 6];
    let card = score(clues, &mut counts);
    let givens = givens_of(clues);
    let rating = rating_of(&givens, counts);
    tally_grid(tally, card.verdict, check);
    write_score(out, &card, rating, check);
}

// A text whose grid has 81 bytes.
fn score_text(text: &[u8], out: &mut LinesPen, tally: &mut Tally)
    ensures { (out.new ≡ writes (append 256 (outcome_bytes [] (scored_from text.now))) out.old) × (tally.new ≡ tallied (scored_from text.now) tally.old) }
{
    let size = text.len().min(81);
    match parse_string(&text[..size]) {
        Err(stop) => {
            tally_refused(tally);
            refusal_lines(out, stop);
        }
        Ok(clues) => score_clues(&clues, check_text(text), out, tally),
    }
}

// `kept` are the line's first bytes, with its carriage return, and `whole` is the length of its grid.
pub fn write_line(kept: &[u8], whole: usize, out: &mut LinesPen, tally: &mut Tally)
    ensures { (out.new ≡ writes (append 256 (outcome_bytes kept.now (outcome_from kept.now whole))) out.old) × (tally.new ≡ tallied (outcome_from kept.now whole) tally.old) }
{
    let length = length_without(kept, b'\r');
    if length == 0 {
        out.push_word(kept);
        out.push(b'\n');
        return;
    }
    if whole != 81 {
        tally_refused(tally);
        number_line(out, b"refused 1 ", whole);
        return;
    }
    score_text(&kept[..length], out, tally);
}
