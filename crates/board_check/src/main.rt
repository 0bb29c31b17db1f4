// The readers, the opener, the board's calls, entering and rubbing out, and the writers at their edges. A line for each call, `NAME A B STOP DETAIL`: A and B
// say on what, and STOP is 0 where the call is not refused, with its number or a checksum of its result beside it.
// tools/board_check.py makes the file `stdout` from the paper's words, and knows nothing of this crate.
#![tactic(auto)]

use board::{Board, Verdict, clues, entries};
use printing::{fold, mask_sum, number, refusal, word};
use std::io;
use stops::Stop;

const NUMBERS: [i32; 7] = [-2147483648, -1, 0, 1, 9, 10, 2147483647];

fn named(rt: &impl Print, name: &[u8], a: u64, b: u64) -> io::Result<()> {
    word(rt, name)?;
    number(rt, a)?;
    number(rt, b)
}

fn line(rt: &impl Print, name: &[u8], a: u64, b: u64, value: u64) -> io::Result<()> {
    named(rt, name, a, b)?;
    number(rt, 0)?;
    number(rt, value)?;
    word(rt, b"\n")
}

fn refused(rt: &impl Print, name: &[u8], a: u64, b: u64, stop: Stop) -> io::Result<()> {
    named(rt, name, a, b)?;
    refusal(rt, stop)?;
    word(rt, b"\n")
}

// What a call answers: a number of its value, or its stop.
fn told(rt: &impl Print, name: &[u8], a: u64, b: u64, answer: Result<u64, Stop>) -> io::Result<()> {
    match answer {
        Ok(value) => line(rt, name, a, b, value),
        Err(stop) => refused(rt, name, a, b, stop),
    }
}

fn byte_sum(bytes: &[u8]) -> u64 {
    bytes
        .iter()
        .fold(0, |sum, byte| fold(sum, u16::from(*byte)))
}

fn clue_sum(grid: &[i32; 81]) -> u64 {
    byte_sum(&clues::givens_of(grid))
}

fn read(rt: &impl Print, name: &[u8], a: u64, b: u64, bytes: &[u8]) -> io::Result<()> {
    let answer = text::parse_string(bytes);
    told(rt, name, a, b, answer.map(|grid| clue_sum(&grid)))
}

fn read_sheet(rt: &impl Print, name: &[u8], a: u64, b: u64, bytes: &[u8]) -> io::Result<()> {
    let answer = text::sheets::parse_sheet(bytes);
    told(rt, name, a, b, answer.map(|grid| clue_sum(&grid)))
}

fn opened(rt: &impl Print, a: u64, b: u64, grid: [i32; 81]) -> io::Result<()> {
    let answer = Board::new(grid);
    told(
        rt,
        b"open",
        a,
        b,
        answer.map(|board| mask_sum(&board.masks)),
    )
}

fn write(rt: &impl Print, a: u64, grid: &[i32; 81], out: &mut [u8]) -> io::Result<()> {
    let lent = out.len() as u64;
    let answer = text::write_text(grid, out);
    told(rt, b"write", a, lent, answer.map(|n| n as u64))
}

fn lent(rt: &impl Print, a: u64, b: u64, out: &[u8; 100]) -> io::Result<()> {
    line(rt, b"lent", a, b, byte_sum(out))
}

// The writer on so many of a hundred bytes, and what they are after it.
fn writes(rt: &impl Print, a: u64, grid: &[i32; 81]) -> io::Result<()> {
    let mut none = [b'x'; 100];
    write(rt, a, grid, &mut none[..0])?;
    lent(rt, a, 0, &none)?;
    let mut few = [b'x'; 100];
    write(rt, a, grid, &mut few[..80])?;
    lent(rt, a, 80, &few)?;
    let mut just = [b'x'; 100];
    write(rt, a, grid, &mut just[..81])?;
    lent(rt, a, 81, &just)?;
    let mut more = [b'x'; 100];
    write(rt, a, grid, &mut more[..100])?;
    lent(rt, a, 100, &more)
}

fn write_sheet(rt: &impl Print, a: u64, grid: &[i32; 81], out: &mut [u8]) -> io::Result<()> {
    let lent = out.len() as u64;
    let answer = text::sheets::write_sheet(grid, out);
    told(rt, b"canonical", a, lent, answer.map(|n| n as u64))
}

fn writes_sheets(rt: &impl Print, a: u64, grid: &[i32; 81]) -> io::Result<()> {
    let mut none = [b'x'; 100];
    write_sheet(rt, a, grid, &mut none[..0])?;
    lent(rt, a, 0, &none)?;
    let mut few = [b'x'; 100];
    write_sheet(rt, a, grid, &mut few[..89])?;
    lent(rt, a, 89, &few)?;
    let mut just = [b'x'; 100];
    write_sheet(rt, a, grid, &mut just[..90])?;
    lent(rt, a, 90, &just)?;
    let mut more = [b'x'; 100];
    write_sheet(rt, a, grid, &mut more[..91])?;
    lent(rt, a, 91, &more)
}

fn judged(rt: &impl Print, a: u64, b: u64, verdict: Verdict) -> io::Result<()> {
    match verdict {
        Verdict::Dead => line(rt, b"dead", a, b, 0),
        Verdict::Finished => line(rt, b"finished", a, b, 0),
        Verdict::Open => line(rt, b"open", a, b, 0),
    }
}

fn numbers_of(rt: &impl Print, a: u64, at: u32, board: &Board) -> io::Result<()> {
    let b = at as u64;
    told(rt, b"count", a, b, board.clue_count().map(|n| n as u64))?;
    told(rt, b"mask", a, b, board.cell_mask(at).map(u64::from))?;
    match board.verdict() {
        Ok(verdict) => judged(rt, a, b, verdict),
        Err(stop) => refused(rt, b"verdict", a, b, stop),
    }
}

// Each call on a board; `at` is the cell whose mask is asked for.
fn calls(rt: &impl Print, a: u64, at: u32, board: &Board) -> io::Result<()> {
    let b = at as u64;
    let puzzle = board.original_puzzle();
    told(rt, b"puzzle", a, b, puzzle.map(|grid| clue_sum(&grid)))?;
    let candidates = board.get_candidates();
    told(
        rt,
        b"candidates",
        a,
        b,
        candidates.map(|masks| mask_sum(&masks)),
    )?;
    let mut after = *board;
    let updated = after.update_candidates();
    let sum = mask_sum(&after.masks);
    told(rt, b"update", a, b, updated.map(|_| sum))?;
    line(rt, b"left", a, b, sum)?;
    numbers_of(rt, a, at, board)
}

fn with_clue(grid: [i32; 81], cell: usize, clue: i32) -> [i32; 81] {
    let mut put = grid;
    if cell < 81 {
        put[cell] = clue;
    }
    put
}

fn handed(clues: [i32; 81], entries: [i32; 81], masks: [u16; 81]) -> Board {
    Board {
        clues,
        entries,
        masks,
    }
}

// The fresh board of the clues, with one mask changed.
fn with_mask(grid: [i32; 81], cell: usize, mask: u16) -> Board {
    let mut board = entries::fresh_board(grid, [0; 81]);
    if cell < 81 {
        board.masks[cell] = mask;
    }
    board
}

fn texts(rt: &impl Print) -> io::Result<()> {
    let dots = [b'.'; 4096];
    read(rt, b"text", 0, 0, &dots[..0])?;
    read(rt, b"text", 80, 0, &dots[..80])?;
    read(rt, b"text", 81, 0, &dots[..81])?;
    read(rt, b"text", 82, 0, &dots[..82])?;
    read(rt, b"text", 4096, 0, &dots)
}

fn bytes(rt: &impl Print) -> io::Result<()> {
    for byte in 0..=u8::MAX {
        let mut first = [b'.'; 81];
        first[0] = byte;
        read(rt, b"byte", byte as u64, 0, &first)?;
        let mut last = [b'.'; 81];
        last[80] = byte;
        read(rt, b"byte", byte as u64, 80, &last)?;
    }
    Ok(())
}

// 81 cells and then bytes that are all alike.
fn cells_before(after: u8) -> [u8; 4097] {
    let mut sheet = [after; 4097];
    sheet[..81].fill(b'7');
    sheet
}

fn first_bytes(rt: &impl Print, b: u64, sheet: &[u8], length: usize) -> io::Result<()> {
    if length <= sheet.len() {
        read_sheet(rt, b"sheet", length as u64, b, &sheet[..length])?;
    }
    Ok(())
}

fn lengths(rt: &impl Print, b: u64, sheet: &[u8; 4097]) -> io::Result<()> {
    first_bytes(rt, b, sheet, 80)?;
    first_bytes(rt, b, sheet, 81)?;
    first_bytes(rt, b, sheet, 82)?;
    first_bytes(rt, b, sheet, 4096)?;
    first_bytes(rt, b, sheet, 4097)
}

// A byte before 80 cells, and after 81 with passed-over bytes among them.
fn sheet_byte(rt: &impl Print, byte: u8) -> io::Result<()> {
    let mut first = [b'.'; 82];
    first[0] = b' ';
    first[1] = byte;
    read_sheet(rt, b"sheet_byte", byte as u64, 1, &first)?;
    let mut last = [b'5'; 89];
    last[40] = b'|';
    last[41] = b'-';
    last[42] = b'+';
    last[43] = b'\r';
    last[44] = b'\n';
    last[86] = b' ';
    last[87] = b'\n';
    last[88] = byte;
    read_sheet(rt, b"sheet_byte", byte as u64, 88, &last)
}

fn sheet_bytes(rt: &impl Print) -> io::Result<()> {
    for byte in 0..=u8::MAX {
        sheet_byte(rt, byte)?;
    }
    Ok(())
}

fn sheets(rt: &impl Print) -> io::Result<()> {
    read_sheet(rt, b"sheet", 0, 0, b"")?;
    lengths(rt, 0, &cells_before(b'.'))?;
    lengths(rt, 1, &cells_before(b' '))?;
    lengths(rt, 2, &cells_before(b'x'))?;
    sheet_bytes(rt)?;
    read_sheet(
        rt,
        b"ruled",
        0,
        0,
        b"+-------+-------+-------+\r\n| 5 3 . | . 7 . | . . . |\r\n| 6 . . | 1 9 5 | . . . |\r\n| . 9 8 | . . . | . 6 . |\r\n+-------+-------+-------+\r\n| 8 . . | . 6 . | . . 3 |\r\n| 4 . . | 8 . 3 | . . 1 |\r\n| 7 . . | . 2 . | . . 6 |\r\n+-------+-------+-------+\r\n| . 6 . | . . . | 2 8 . |\r\n| . . . | 4 1 9 | . . 5 |\r\n| . . . | . 8 . | . 7 9 |\r\n+-------+-------+-------+\r\n",
    )
}

fn clue_numbers(rt: &impl Print) -> io::Result<()> {
    for (i, clue) in NUMBERS.iter().enumerate() {
        opened(rt, i as u64, 0, with_clue([0; 81], 0, *clue))?;
        opened(rt, i as u64, 80, with_clue([0; 81], 80, *clue))?;
    }
    Ok(())
}

// Masks that an open cell or a clue cell may not have, and one that an open cell may.
fn masks_at(rt: &impl Print, at: u32) -> io::Result<()> {
    let cell = at as usize;
    let beside = with_clue(with_clue([0; 81], 1, 1), 79, 1);
    let on = with_clue(with_clue([0; 81], 0, 1), 80, 1);
    calls(rt, 0, at, &with_mask(beside, cell, 511))?;
    calls(rt, 1, at, &with_mask(beside, cell, 512))?;
    calls(rt, 2, at, &with_mask(beside, cell, 0))?;
    calls(rt, 3, at, &with_mask(on, cell, 0))?;
    calls(rt, 4, at, &with_mask(on, cell, 3))?;
    calls(rt, 5, at, &with_mask(on, cell, 2))
}

// A bad clue after a bad mask, and two bad clues.
fn orders(rt: &impl Print) -> io::Result<()> {
    let masks = [511; 81];
    let one = with_clue(with_clue([0; 81], 1, 1), 80, 10);
    let none = [0; 81];
    calls(rt, 6, 0, &handed(one, none, masks))?;
    let two = with_clue(one, 0, -1);
    calls(rt, 7, 0, &handed(two, none, masks))?;
    calls(rt, 8, 0, &handed(with_clue(none, 80, 1), none, masks))
}

// An entry of each number in a cell that is open, and in one with a clue.
fn entry_numbers(rt: &impl Print) -> io::Result<()> {
    let beside = with_clue(with_clue([0; 81], 1, 1), 79, 1);
    for (i, entry) in NUMBERS.iter().enumerate() {
        let first = with_clue([0; 81], 0, *entry);
        calls(rt, 20 + i as u64, 0, &entries::fresh_board(beside, first))?;
        let last = with_clue([0; 81], 79, *entry);
        calls(rt, 20 + i as u64, 79, &entries::fresh_board(beside, last))?;
    }
    Ok(())
}

// Two bad entries, a bad entry before a bad clue, one after a bad mask, masks that lack nothing of an entry, and those of its cell alone.
fn entry_orders(rt: &impl Print) -> io::Result<()> {
    let clue = with_clue([0; 81], 1, 1);
    let entry = with_clue([0; 81], 0, 2);
    let two = with_clue(with_clue([0; 81], 1, 2), 80, 10);
    calls(rt, 30, 0, &handed(clue, two, [511; 81]))?;
    calls(rt, 31, 0, &handed(with_clue(clue, 80, -1), two, [511; 81]))?;
    let fresh = entries::fresh_board(clue, [0; 81]).masks;
    calls(rt, 32, 0, &handed(clue, entry, fresh))?;
    let mut alone = fresh;
    alone[0] = 2;
    calls(rt, 33, 0, &handed(clue, entry, alone))
}

// The board after a call that enters or rubs out, refused or not.
fn pencilled(
    rt: &impl Print,
    name: &[u8],
    a: u64,
    cell: u32,
    answer: Result<(), Stop>,
    after: &Board,
) -> io::Result<()> {
    let b = cell as u64;
    let sum = mask_sum(&after.masks);
    told(rt, name, a, b, answer.map(|_| sum))?;
    line(rt, b"entries", a, b, clue_sum(&after.entries))?;
    line(rt, b"left", a, b, sum)
}

fn entered(rt: &impl Print, board: &Board, cell: u32) -> io::Result<()> {
    for (i, digit) in NUMBERS.iter().enumerate() {
        let mut after = *board;
        let answer = entries::enter(&mut after, cell, *digit);
        pencilled(rt, b"enter", i as u64, cell, answer, &after)?;
    }
    let mut after = *board;
    let answer = entries::rub_out(&mut after, cell);
    pencilled(rt, b"rub_out", 0, cell, answer, &after)
}

// A clue in cell 0, an entry in cell 80 and a candidate removed in cell 40: each number entered in each of these, in a cell that sees the
// clue and in no cell. Then the same with a mask that is refused.
fn pencil(rt: &impl Print) -> io::Result<()> {
    let clue = with_clue([0; 81], 0, 1);
    let entry = with_clue([0; 81], 80, 2);
    let mut board = entries::fresh_board(clue, entry);
    board.masks[40] = 510;
    entered(rt, &board, 0)?;
    entered(rt, &board, 1)?;
    entered(rt, &board, 40)?;
    entered(rt, &board, 80)?;
    entered(rt, &board, 81)?;
    entered(rt, &board, 4294967295)?;
    board.masks[40] = 512;
    entered(rt, &board, 81)
}

fn board_of(bytes: &[u8]) -> Result<Board, Stop> {
    Board::new(text::parse_string(bytes)?)
}

fn good(rt: &impl Print, a: u64, bytes: &[u8]) -> io::Result<()> {
    let board = match board_of(bytes) {
        Ok(board) => board,
        Err(stop) => return refused(rt, b"good", a, 0, stop),
    };
    calls(rt, a, 0, &board)?;
    calls(rt, a, 80, &board)?;
    calls(rt, a, 81, &board)?;
    calls(rt, a, 4294967295, &board)?;
    writes(rt, a, &board.clues)?;
    writes_sheets(rt, a, &board.clues)
}

fn main(rt: HostRuntime) -> io::Result<()> {
    texts(&rt)?;
    bytes(&rt)?;
    sheets(&rt)?;
    clue_numbers(&rt)?;
    masks_at(&rt, 0)?;
    masks_at(&rt, 80)?;
    orders(&rt)?;
    entry_numbers(&rt)?;
    entry_orders(&rt)?;
    pencil(&rt)?;
    good(
        &rt,
        9,
        b"123456789456789123789123456231564897564897231897231564312645978645978312978312645",
    )?;
    good(
        &rt,
        10,
        b".2345678945678912378912345623156489756489723189723156431264597864597831297831264.",
    )?;
    good(
        &rt,
        11,
        b"0..4567893.......................................................................",
    )?;
    good(
        &rt,
        12,
        b"213456789456789123789123456231564897564897231897231564312645978645978312978312645",
    )?;
    let bad = with_clue([9; 81], 80, 10);
    writes(&rt, 13, &bad)?;
    writes_sheets(&rt, 13, &bad)
}
