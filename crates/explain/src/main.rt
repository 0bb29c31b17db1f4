// Explains how the grid on standard input settles: a line for each step that removed something, the candidates that are left as a drawn grid, the
// difficulty figure and the verdict; or `refused N P`. README.md has the line format.
//
// What a line says of a step is the list of settling, taken step by step as the checker of step lists does. Each line is made in lent bytes and written out.
#![tactic(auto)]

use board::Board;
use board::entries::fresh_board;
use board::verdicts::verdict_of;
use card::layout::verdict_line;
use card::write_refusal;
use cells::notes::Steps;
use output::Pen;
use passes::apply_settling;
use std::io;
use std::io::Write;
use stops::Stop;

mod drawing;
mod figures;
mod lines;
mod losses;
mod names;
mod reading;
mod step_lines;

fn refuse(rt: &impl Print, stop: Stop) -> io::Result<()> {
    let mut line = [0; 256];
    let end = write_refusal(Err(stop), &mut line);
    io::writer(rt).write_all(&line[..end])
}

fn print_verdict(rt: &impl Print, masks: &[u16; 81]) -> io::Result<()> {
    let mut room = [0; 256];
    let mut line = Pen::new(&mut room);
    verdict_line(&mut line, verdict_of(masks));
    lines::write_out(rt, &line)
}

fn print_settled(
    rt: &impl Print,
    fresh: &Board,
    steps: &Steps,
    masks: &[u16; 81],
) -> io::Result<()> {
    step_lines::print_steps(rt, fresh, steps)?;
    lines::write_line(rt, &mut Pen::new(&mut [0; 256]))?;
    drawing::print_grid(rt, masks)?;
    figures::print_difficulty(rt, fresh)?;
    print_verdict(rt, masks)
}

// Settling does not refuse a fresh board.
fn explain(rt: &impl Print, fresh: Board) -> io::Result<()> {
    let mut board = fresh;
    match apply_settling(&mut board) {
        Err(stop) => refuse(rt, stop),
        Ok(settled) => print_settled(rt, &fresh, &settled.steps, &board.masks),
    }
}

fn main(rt: HostRuntime) -> io::Result<()> {
    match reading::read_clues(&rt) {
        Err(stop) => refuse(&rt, stop),
        Ok(clues) => explain(&rt, fresh_board(clues, [0; 81])),
    }
}
