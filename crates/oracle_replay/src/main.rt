// Replays lists of ported calls and prints what the engine answers, in the form in which the Rust original's answers stand in the
// file `stdout`. host/src/bin/fixed_list.rs wrote that file, and the cases in `stdin`, from the Rust alone; host/README.md says how.
//
// A case is a line of 94 bytes: a grid, a space, and up to eleven steps, each the byte of `0` and its number, filled with spaces.
// Its answer is the grid, then `refused STOP PLACE`, or `open`, the clues and a checksum of the fresh masks; then for each step its
// number, its flag, a checksum of the masks after it, and each report, its cell and its digit.
#![tactic(auto)]

use board::{Board, count_clues};
use calls::{StepError, step};
use input::read_full;
use printing::{mask_sum, number, refusal, word};
use std::io;
use stops::Stop;
use techniques::singles::Reports;

fn print_reports(rt: &impl Print, reports: &Reports) -> io::Result<()> {
    let found = reports.cells.iter().zip(&reports.digits);
    for (cell, digit) in found.take(reports.count) {
        print!(rt; " {cell} {digit}")?;
    }
    Ok(())
}

// One step on the board, and its line.
fn print_step(rt: &impl Print, which: u8, board: &mut Board) -> io::Result<()> {
    let answer = step(which, board);
    let sum = mask_sum(&board.masks);
    print!(rt; "{which}")?;
    match answer {
        Ok(done) => {
            print!(rt; " {} {sum}", done.made as u64)?;
            print_reports(rt, &done.reports)?;
        }
        Err(StepError::Refused(_)) => print!(rt; " refused {sum}")?,
        Err(StepError::NoStep) => print!(rt; " no step {sum}")?,
    }
    word(rt, b"\n")
}

fn print_list(rt: &impl Print, steps: &[u8], board: &mut Board) -> io::Result<()> {
    for byte in steps {
        if b'0' <= *byte {
            print_step(rt, *byte - b'0', board)?;
        }
    }
    Ok(())
}

fn refused(rt: &impl Print, stop: Stop) -> io::Result<()> {
    word(rt, b"refused")?;
    refusal(rt, stop)?;
    word(rt, b"\n")
}

fn print_opened(rt: &impl Print, board: &Board) -> io::Result<()> {
    word(rt, b"open")?;
    number(rt, count_clues(&board.clues) as u64)?;
    number(rt, mask_sum(&board.masks))?;
    word(rt, b"\n")
}

fn opened(grid: &[u8]) -> Result<Board, Stop> {
    Board::new(text::parse_string(grid)?)
}

fn print_case(rt: &impl Print, line: &[u8; 94]) -> io::Result<()> {
    let grid = &line[..81];
    word(rt, grid)?;
    word(rt, b"\n")?;
    match opened(grid) {
        Err(stop) => refused(rt, stop),
        Ok(mut board) => {
            print_opened(rt, &board)?;
            print_list(rt, &line[82..93], &mut board)
        }
    }
}

// Whether there was a case to read.
fn next_case(rt: &(impl Input + Print)) -> io::Result<bool> {
    let mut line = [0u8; 94];
    if read_full(rt, &mut line) < 94 {
        return Ok(false);
    }
    print_case(rt, &line)?;
    Ok(true)
}

// At most so many cases.
fn main(rt: HostRuntime) -> io::Result<()> {
    for _ in 0..1000 {
        if !next_case(&rt)? {
            break;
        }
    }
    Ok(())
}
