// The tally of a round: grids, finished, open, dead, refused, right, not, at the places 0 to 6; and its bytes.
ghost use Rattle.std.specs.Prelude.{◌≡◌, ◌<◌};
ghost use Rattle.output.specs.code.Tapes.{tape, append};
ghost use Rattle.rounds.specs.Summaries.{counted, raised, verdict_place, check_tallied, summary_bytes};

use crate::answers::Checked;
use board::Verdict;
use card::lines::{Lines, number_line};
use output::Pen;

// Places by number and not named fields, since the summary's definitions and the promise on the tally (specs/Summaries and Promises) speak of places.
pub type Tally = [usize; 7];

// One more, up to a number that no count reaches.
pub fn count_one(n: usize) -> usize
    ensures { result ≡ counted n }
{
    if n < 9223372036854775807 {
        return n + 1;
    }
    n
}

fn raise(tally: &mut Tally, place: usize)
    requires { place < 7 }
    ensures { tally.new ≡ raised place tally.old }
{
    tally[place] = count_one(tally[place]);
}

// The tally's own order, which is no verdict's number elsewhere.
fn verdict_place(verdict: Verdict) -> usize
    ensures { (result ≡ verdict_place verdict) × (result < 7) }
{
    match verdict {
        Verdict::Finished => 1,
        Verdict::Open => 2,
        Verdict::Dead => 3,
    }
}

fn tally_check(tally: &mut Tally, check: Checked)
    ensures { tally.new ≡ check_tallied check tally.old }
{
    match check {
        Checked::NoAnswer => {}
        Checked::Wrong => raise(tally, 6),
        Checked::Clue(_) => raise(tally, 6),
        Checked::Right => raise(tally, 5),
    }
}

pub fn tally_refused(tally: &mut Tally)
    ensures { tally.new ≡ raised 4 (raised 0 tally.old) }
{
    raise(tally, 0);
    raise(tally, 4);
}

pub fn tally_grid(tally: &mut Tally, verdict: Verdict, check: Checked)
    ensures { tally.new ≡ check_tallied check (raised (verdict_place verdict) (raised 0 tally.old)) }
{
    raise(tally, 0);
    raise(tally, verdict_place(verdict));
    tally_check(tally, check);
}

// The summary, in the first lent bytes, and how many it has.
pub fn write_summary(tally: Tally, out: &mut Lines) -> usize
    ensures { tape out.new result ≡ append 256 (summary_bytes tally) (tape out.old 0) }
{
    let mut lines = Pen::new(out);
    number_line(&mut lines, b"grids ", tally[0]);
    number_line(&mut lines, b"finished ", tally[1]);
    number_line(&mut lines, b"open ", tally[2]);
    number_line(&mut lines, b"dead ", tally[3]);
    number_line(&mut lines, b"refused ", tally[4]);
    number_line(&mut lines, b"right ", tally[5]);
    number_line(&mut lines, b"not ", tally[6]);
    lines.end
}
