// The steps of a list, one line each. A step is taken on the masks by the checker's own function, so that what is printed of the list is what the
// checker accepts.
ghost use Rattle.std.specs.Prelude.{◌<◌};

use crate::lines;
use crate::losses::push_losses;
use crate::names::push_step;
use board::Board;
use board::entries::givens_of;
use cells::notes::Steps;
use output::Pen;
use std::io;
use step_lists::kinds::take_at;

// A step's kind and parts.
fn step_at(bytes: &[u8; 4374], index: usize) -> [usize; 6]
    requires { index < 729 }
{
    let at = 6 * index;
    [
        usize::from(bytes[at]),
        usize::from(bytes[at + 1]),
        usize::from(bytes[at + 2]),
        usize::from(bytes[at + 3]),
        usize::from(bytes[at + 4]),
        usize::from(bytes[at + 5]),
    ]
}

// A step is taken, and its line written out: its number from 1, its name and what it removed.
fn print_step(
    rt: &impl Print,
    givens: &[u8; 81],
    masks: &mut [u16; 81],
    bytes: &[u8; 4374],
    index: usize,
) -> io::Result<()>
    requires { index < 729 }
{
    let before = *masks;
    take_at(givens, masks, bytes, 6 * index);
    let mut room = [0; 256];
    let mut line = Pen::new(&mut room);
    line.push_number(index + 1);
    push_step(&mut line, step_at(bytes, index));
    line.push(b':');
    push_losses(&mut line, &before, masks);
    lines::write_line(rt, &mut line)
}

// The steps from the fresh board on.
pub fn print_steps(rt: &impl Print, fresh: &Board, steps: &Steps) -> io::Result<()> {
    let givens = givens_of(&fresh.clues, &fresh.entries);
    let mut masks = fresh.masks;
    for index in 0..729 {
        if index < steps.count {
            print_step(rt, &givens, &mut masks, &steps.bytes, index)?;
        }
    }
    Ok(())
}
