// The published cases P1 to P11, and document 02's of Claiming and of entries, through the public calls. The file `stdout` is written from the paper's sentences:
// a text or clue numbers with the stop and what stands beside it, `step NUMBER FLAG REMOVED` by step numbers, a mask by its cell.
#![tactic(auto)]

use board::entries::{enter, rub_out};
use board::{Board, Verdict};
use calls::{StepError, Stepped, step};
use printing::{number, refusal, word};
use record::{move_back, move_record, write_record};
use std::io;
use stops::Stop;
use techniques::singles::Reports;

fn end(rt: &impl Print) -> io::Result<()> {
    word(rt, b"\n")
}

fn line(rt: &impl Print, name: &[u8], a: u64, b: u64) -> io::Result<()> {
    word(rt, name)?;
    number(rt, a)?;
    number(rt, b)?;
    end(rt)
}

fn refused(rt: &impl Print, name: &[u8], stop: Stop) -> io::Result<()> {
    word(rt, name)?;
    refusal(rt, stop)?;
    end(rt)
}

// What a call answers: `a` and its value, or its stop.
fn told(rt: &impl Print, name: &[u8], a: u64, answer: Result<u64, Stop>) -> io::Result<()> {
    match answer {
        Ok(value) => line(rt, name, a, value),
        Err(stop) => refused(rt, name, stop),
    }
}

fn checked(rt: &impl Print, name: &[u8], answer: Result<(), Stop>) -> io::Result<()> {
    told(rt, name, 0, answer.map(|_| 0))
}

fn read(rt: &impl Print, name: &[u8], bytes: &[u8]) -> io::Result<()> {
    checked(rt, name, text::parse_string(bytes).map(|_| ()))
}

fn open(rt: &impl Print, name: &[u8], clues: [i32; 81]) -> io::Result<()> {
    checked(rt, name, Board::new(clues).map(|_| ()))
}

// The clues of a text; none where it is refused.
fn clues_of(bytes: &[u8]) -> [i32; 81] {
    text::parse_string(bytes).unwrap_or([0; 81])
}

// The board of a text; empty where its clues are refused.
fn fresh(bytes: &[u8]) -> Board {
    Board::new(clues_of(bytes)).unwrap_or(Board {
        clues: [0; 81],
        entries: [0; 81],
        masks: [0; 81],
    })
}

fn with_clue(clues: [i32; 81], cell: usize, clue: i32) -> [i32; 81] {
    let mut put = clues;
    if cell < 81 {
        put[cell] = clue;
    }
    put
}

fn mask(rt: &impl Print, name: &[u8], board: Board, cell: u32) -> io::Result<()> {
    told(rt, name, cell as u64, board.cell_mask(cell).map(u64::from))
}

fn row_masks(rt: &impl Print, name: &[u8], board: Board) -> io::Result<()> {
    for cell in 0..9 {
        mask(rt, name, board, cell)?;
    }
    Ok(())
}

fn fewer(before: Board, after: Board) -> u64 {
    let masks = before.masks;
    let left = after.masks;
    let many = cells::total(masks);
    let few = cells::total(left);
    if few <= many {
        return (many - few) as u64;
    }
    729
}

fn flag(made: bool) -> u64 {
    if made {
        return 1;
    }
    0
}

fn progress(answer: Result<Stepped, StepError>) -> u64 {
    match answer {
        Ok(done) => flag(done.made),
        Err(StepError::Refused(stop)) => stops::number(stop) as u64,
        Err(StepError::NoStep) => 20,
    }
}

// The step on the board; the board after it.
fn take(rt: &impl Print, name: &[u8], which: u8, board: Board) -> io::Result<Board> {
    let mut after = board;
    let answer = step(which, &mut after);
    word(rt, name)?;
    number(rt, which as u64)?;
    number(rt, progress(answer))?;
    number(rt, fewer(board, after))?;
    end(rt)?;
    Ok(after)
}

// Every pass, each on the same board.
fn passes(rt: &impl Print, name: &[u8], board: Board) -> io::Result<()> {
    for which in [1, 2, 3, 7, 8, 9, 10, 14, 11, 13] {
        take(rt, name, which, board)?;
    }
    Ok(())
}

// What a step hands back; where it is refused, no flag, no report and nothing counted.
fn stepped(which: u8, board: &mut Board) -> Stepped {
    step(which, board).unwrap_or(Stepped {
        made: false,
        reports: Reports::new(),
        sweeps: 0,
        removed: 0,
    })
}

fn settle(rt: &impl Print, name: &[u8], board: Board) -> io::Result<()> {
    let mut after = board;
    let done = stepped(12, &mut after);
    line(rt, name, done.sweeps as u64, done.removed as u64)
}

fn report(rt: &impl Print, cell: u8, digit: u8) -> io::Result<()> {
    number(rt, cell as u64)?;
    number(rt, digit as u64)
}

// How many reports, and the first three.
fn reports(rt: &impl Print, name: &[u8], which: u8, board: Board) -> io::Result<()> {
    let mut after = board;
    let done = stepped(which, &mut after);
    let found = done.reports;
    word(rt, name)?;
    number(rt, found.count as u64)?;
    let cells = found.cells;
    let digits = found.digits;
    report(rt, cells[0], digits[0])?;
    report(rt, cells[1], digits[1])?;
    report(rt, cells[2], digits[2])?;
    end(rt)
}

fn verify(rt: &impl Print, name: &[u8], grid: [i32; 81]) -> io::Result<()> {
    word(rt, name)?;
    if grid::verify_solution(&grid) {
        word(rt, b" yes\n")?;
    } else {
        word(rt, b" no\n")?;
    }
    Ok(())
}

// What a writer answers, and the first four of its eight bytes.
fn written(
    rt: &impl Print,
    name: &[u8],
    answer: Result<usize, Stop>,
    bytes: &[u8; 8],
) -> io::Result<()> {
    told(rt, name, 0, answer.map(|length| length as u64))?;
    word(rt, name)?;
    report(rt, bytes[0], bytes[1])?;
    report(rt, bytes[2], bytes[3])?;
    end(rt)
}

// The record in eight lent bytes that were 255.
fn record(rt: &impl Print, name: &[u8], board: Board) -> io::Result<()> {
    let mut bytes = [255u8; 8];
    let answer = write_record(&board, &mut bytes);
    written(rt, name, answer, &bytes)
}

fn moved(rt: &impl Print, name: &[u8], old: &[u8]) -> io::Result<()> {
    let mut bytes = [255u8; 8];
    let answer = move_record(old, &mut bytes);
    written(rt, name, answer, &bytes)
}

fn moved_back(rt: &impl Print, name: &[u8], new: &[u8]) -> io::Result<()> {
    let mut bytes = [255u8; 8];
    let answer = move_back(new, &mut bytes);
    written(rt, name, answer, &bytes)
}

fn empty_grid(rt: &impl Print) -> io::Result<()> {
    let dots = [b'.'; 81];
    read(rt, b"P1 read", &dots)?;
    let board = fresh(&dots);
    mask(rt, b"P1 mask", board, 0)?;
    mask(rt, b"P1 mask", board, 40)?;
    mask(rt, b"P1 mask", board, 80)?;
    take(rt, b"P1 step", 4, board)?;
    take(rt, b"P1 step", 5, board)?;
    take(rt, b"P1 step", 6, board)?;
    passes(rt, b"P1 step", board)?;
    settle(rt, b"P1 settled", board)?;
    record(rt, b"P1 record", board)
}

fn stops(rt: &impl Print) -> io::Result<()> {
    let dots = [b'.'; 81];
    read(rt, b"P2 read", &dots[..80])?;
    let mut last = dots;
    last[80] = b'a';
    read(rt, b"P3 read", &last)?;
    open(rt, b"P4 open", with_clue([0; 81], 0, -1))?;
    open(rt, b"P4 open", with_clue([0; 81], 80, 10))?;
    Ok(())
}

fn one_open(rt: &impl Print) -> io::Result<()> {
    let board = fresh(
        b".23456789456789123789123456231564897564897231897231564312645978645978312978312645",
    );
    mask(rt, b"P5 mask", board, 0)?;
    reports(rt, b"P5 naked", 4, board)?;
    reports(rt, b"P5 hidden", 5, board)
}

fn filled(rt: &impl Print) -> io::Result<()> {
    let a = clues_of(
        b"123456789456789123789123456231564897564897231897231564312645978645978312978312645",
    );
    verify(rt, b"P6 verify A", a)?;
    verify(rt, b"P6 verify 0", with_clue(a, 80, 0))?;
    verify(rt, b"P6 verify 10", with_clue(a, 80, 10))?;
    verify(rt, b"P6 verify -2147483648", with_clue(a, 80, -2147483648))?;
    verify(
        rt,
        b"P6 verify exchanged",
        with_clue(with_clue(a, 0, 2), 1, 1),
    )
}

fn six_open(rt: &impl Print) -> io::Result<()> {
    let board = fresh(
        b"..3456789456789123789123456..1564897564897231897231564..2645978645978312978312645",
    );
    mask(rt, b"P7 mask", board, 0)?;
    mask(rt, b"P7 mask", board, 1)?;
    mask(rt, b"P7 mask", board, 27)?;
    mask(rt, b"P7 mask", board, 28)?;
    mask(rt, b"P7 mask", board, 54)?;
    mask(rt, b"P7 mask", board, 55)?;
    passes(rt, b"P7 step", board)
}

fn pairs(rt: &impl Print) -> io::Result<()> {
    let board = fresh(
        b"...4567893.......................................................................",
    );
    mask(rt, b"P8 mask", board, 0)?;
    mask(rt, b"P8 mask", board, 1)?;
    mask(rt, b"P8 mask", board, 2)?;
    let after = take(rt, b"P8 step", 1, board)?;
    mask(rt, b"P8 mask", after, 2)?;
    take(rt, b"P9 step", 6, board)?;
    Ok(())
}

fn lines(rt: &impl Print) -> io::Result<()> {
    let board = fresh(
        b".........456......789............................................................",
    );
    let after = take(rt, b"P10 step", 2, board)?;
    take(rt, b"P10 step", 2, after)?;
    settle(rt, b"P10 settled", board)
}

fn conflict(rt: &impl Print) -> io::Result<()> {
    let text = b"55...............................................................................";
    open(rt, b"P11 open", clues_of(text))?;
    let board = fresh(text);
    row_masks(rt, b"P11 mask", board)?;
    let mut after = board;
    stepped(12, &mut after);
    row_masks(rt, b"P11 settled", after)
}

// No wide pass but Claiming removes anything, so that a sweep without it would stop at once.
fn claims(rt: &impl Print) -> io::Result<()> {
    let board = fresh(
        b"...456789........................................................................",
    );
    passes(rt, b"F-5 step", board)?;
    settle(rt, b"F-5 settled", board)
}

// A digit entered; the board after it.
fn entering(rt: &impl Print, board: &Board, cell: u32, digit: i32) -> io::Result<Board> {
    let mut after = *board;
    let answer = enter(&mut after, cell, digit);
    checked(rt, b"F-6 enter", answer)?;
    Ok(after)
}

// The digit of a cell rubbed out; the board after it.
fn rubbing_out(rt: &impl Print, board: &Board, cell: u32) -> io::Result<Board> {
    let mut after = *board;
    let answer = rub_out(&mut after, cell);
    checked(rt, b"F-6 rub out", answer)?;
    Ok(after)
}

fn count(rt: &impl Print, name: &[u8], board: Board) -> io::Result<()> {
    told(rt, name, 0, board.clue_count().map(|n| n as u64))
}

fn judged(rt: &impl Print, name: &[u8], verdict: Verdict) -> io::Result<()> {
    word(rt, name)?;
    match verdict {
        Verdict::Dead => word(rt, b" dead\n"),
        Verdict::Finished => word(rt, b" finished\n"),
        Verdict::Open => word(rt, b" open\n"),
    }
}

fn verdict(rt: &impl Print, name: &[u8], board: Board) -> io::Result<()> {
    match board.verdict() {
        Ok(found) => judged(rt, name, found),
        Err(stop) => refused(rt, name, stop),
    }
}

// The right digit and a wrong one in the open cell of P5; then the stops.
fn entered(rt: &impl Print) -> io::Result<()> {
    let board = fresh(
        b".23456789456789123789123456231564897564897231897231564312645978645978312978312645",
    );
    let right = entering(rt, &board, 0, 1)?;
    mask(rt, b"F-6 mask", right, 0)?;
    reports(rt, b"F-6 naked", 4, right)?;
    count(rt, b"F-6 count", right)?;
    verdict(rt, b"F-6 verdict", right)?;
    let wrong = entering(rt, &board, 0, 2)?;
    mask(rt, b"F-6 mask", wrong, 0)?;
    verdict(rt, b"F-6 verdict", wrong)?;
    entering(rt, &board, 81, 0)?;
    entering(rt, &board, 1, 0)?;
    entering(rt, &board, 1, 1)?;
    entering(rt, &right, 0, 2)?;
    rubbing_out(rt, &board, 81)?;
    rubbing_out(rt, &board, 1)?;
    rubbing_out(rt, &board, 0)?;
    Ok(())
}

// Entering, a pass and rubbing out on P10: all removals are gone.
fn rubbed(rt: &impl Print) -> io::Result<()> {
    let board = fresh(
        b".........456......789............................................................",
    );
    let entered = entering(rt, &board, 80, 1)?;
    let after = take(rt, b"F-6 step", 2, entered)?;
    let back = rubbing_out(rt, &after, 80)?;
    line(rt, b"F-6 left", fewer(board, back), fewer(back, board))?;
    let text = b"55...............................................................................";
    let masks = fresh(text).masks;
    let clash = Board {
        clues: clues_of(text),
        entries: with_clue([0; 81], 1, 5),
        masks,
    };
    mask(rt, b"F-6 mask", clash, 0)?;
    let one = entering(rt, &fresh(&[b'.'; 81]), 80, 1)?;
    record(rt, b"F-8 record", one)?;
    moved(rt, b"F-8 moved", &[0; 3])?;
    moved_back(rt, b"F-8 moved back", &[0; 4])?;
    moved_back(rt, b"F-8 moved back", &[0, 1, 80, 1, 0, 0])
}

fn main(rt: HostRuntime) -> io::Result<()> {
    empty_grid(&rt)?;
    stops(&rt)?;
    one_open(&rt)?;
    filled(&rt)?;
    six_open(&rt)?;
    pairs(&rt)?;
    lines(&rt)?;
    conflict(&rt)?;
    claims(&rt)?;
    entered(&rt)?;
    rubbed(&rt)
}
