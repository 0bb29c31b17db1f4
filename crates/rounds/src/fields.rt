// The fields of an output line.
ghost use Rattle.std.specs.Prelude.{◌≡◌};
ghost use Rattle.output.specs.Decimals.{decimal};
ghost use Rattle.output.specs.code.Tapes.{append};
ghost use Rattle.output.specs.code.Pens.{writes};
ghost use Rattle.difficulty.specs.Ratings.{figure_in};
ghost use Rattle.stops.specs.Answer.{answer_of, gives, map};
ghost use Rattle.rounds.specs.Rounds.{field, figure_bytes, check_bytes, score_bytes};

use crate::answers::Checked;
use card::layout::{Card, push_verdict};
use card::lines::LinesPen;
use difficulty::Figure;
use stops::Stop;

fn push_field(line: &mut LinesPen, n: usize)
    ensures { line.new ≡ writes (append 256 (field (decimal n))) line.old }
{
    line.push_number(n);
    line.push(b' ');
}

fn push_figure(line: &mut LinesPen, figure: Figure)
    ensures { line.new ≡ writes (append 256 (figure_bytes (gives (figure_in figure)))) line.old }
{
    line.push_number(figure.quotient);
    line.push(b'+');
    line.push_number(figure.remainder);
    line.push(b'/');
    line.push_number(figure.cells);
}

// A fresh board is refused with 19 alone: a full grid has no figure.
pub fn push_rating(line: &mut LinesPen, rating: Result<Figure, Stop>)
    ensures { line.new ≡ writes (append 256 (figure_bytes (map figure_in (answer_of rating)))) line.old }
{
    match rating {
        Err(_) => line.push_word(b"none"),
        Ok(figure) => push_figure(line, figure),
    }
}

fn push_clue(line: &mut LinesPen, cell: usize)
    ensures { line.new ≡ writes (append 256 (check_bytes (Checked.Clue cell))) line.old }
{
    line.push_word(b"clue ");
    line.push_number(cell);
}

fn push_check(line: &mut LinesPen, check: Checked)
    ensures { line.new ≡ writes (append 256 (check_bytes check)) line.old }
{
    match check {
        Checked::NoAnswer => line.push_word(b"none"),
        Checked::Wrong => line.push_word(b"wrong"),
        Checked::Clue(cell) => push_clue(line, cell),
        Checked::Right => line.push_word(b"right"),
    }
}

pub fn write_score(line: &mut LinesPen, card: &Card, rating: Result<Figure, Stop>, check: Checked)
    ensures { line.new ≡ writes (append 256 (score_bytes card.now (map figure_in (answer_of rating)) check)) line.old }
{
    push_field(line, card.clues);
    push_field(line, card.reported);
    push_field(line, card.sweeps);
    push_field(line, card.removed);
    push_verdict(line, card.verdict);
    line.push(b' ');
    push_rating(line, rating);
    line.push(b' ');
    push_check(line, check);
    line.push(b'\n');
}
