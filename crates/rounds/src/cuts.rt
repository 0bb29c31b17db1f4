// Bytes cut into lines, in pieces that end anywhere. A line's first 256 bytes are kept, and its grid's are counted: what is printed of it needs no more. A line
// that begins with `#` is handed on as it comes.
ghost use Rattle.std.specs.Prelude.{◌≡◌, ◌≤◌, length, take};
ghost use Rattle.steps.specs.Loops.{each};
ghost use Rattle.output.specs.Lent.{over};
ghost use Rattle.output.specs.code.Tapes.{append};
ghost use Rattle.output.specs.code.Pens.{writes};
ghost use Rattle.rounds.specs.Lines.{is_separator};
ghost use Rattle.rounds.specs.Rounds.{outcome_bytes};
ghost use Rattle.rounds.specs.Summaries.{tallied};
ghost use Rattle.rounds.specs.code.Kept.{outcome_from};
ghost use Rattle.rounds.specs.code.Cuts.{fresh_line, fresh_state, held, grown, kept_one, bare_grid, done_bytes, done_state, line_end, is_passed, pass_on, fed, fed_bytes, last_bytes, last_state};

use crate::lines::write_line;
use crate::tallies::{Tally, count_one};
use card::lines::Lines;
use output::Pen;
use text::byte_at;

// What is known of the line that a piece ended in.
#[derive(Clone, Copy)]
pub struct Line {
    // How many of its bytes are kept.
    pub end: usize,
    // How many stand before its first separator.
    pub grid: usize,
    // Whether a separator came.
    pub parted: bool,
    // The last byte; 0 before the first.
    pub last: u8,
    // Whether it begins with `#` and is handed on.
    pub passed: bool,
}

// Between two pieces.
#[derive(Clone, Copy)]
pub struct State {
    pub kept: [u8; 256],
    pub line: Line,
    pub tally: [usize; 7],
}

// What is to be handed out: so many first bytes of the piece, as they are, or of the lent ones.
#[derive(Clone, Copy)]
pub enum Out {
    Piece(usize),
    Lent(usize),
}

// What a call did: `used` bytes of the piece are done with.
#[derive(Clone, Copy)]
pub struct Fed {
    pub state: State,
    pub used: usize,
    pub out: Out,
}

// What the end of a line leaves, and how many bytes it made.
#[derive(Clone, Copy)]
pub struct Ended {
    pub state: State,
    pub count: usize,
}

fn fresh_line() -> Line
    ensures { result ≡ fresh_line }
{
    Line {
        end: 0,
        grid: 0,
        parted: false,
        last: 0,
        passed: false,
    }
}

// Before the first byte.
pub fn fresh_state() -> State
    ensures { result ≡ fresh_state }
{
    State {
        kept: [0; 256],
        line: fresh_line(),
        tally: [0; 7],
    }
}

fn is_separator(byte: u8) -> bool
    ensures { result ≡ is_separator byte }
{
    matches!(byte, b' ' | b'\t' | b',' | b';')
}

fn grow(parted: bool, grid: usize) -> usize
    ensures { result ≡ grown parted grid }
{
    if parted { grid } else { count_one(grid) }
}

// More bytes of a line.
fn keep(kept: &mut Lines, line: Line, bytes: &[u8]) -> Line
    ensures { held kept.new result ≡ each kept_one bytes.now (held kept.old line) }
{
    let mut pen = Pen {
        bytes: kept,
        end: line.end,
    };
    let mut grid = line.grid;
    let mut parted = line.parted;
    let mut last = line.last;
    for byte in bytes {
        last = *byte;
        pen.push(last);
        parted |= is_separator(last);
        grid = grow(parted, grid);
    }
    Line {
        end: pen.end,
        grid,
        parted,
        last,
        passed: line.passed,
    }
}

fn bare_grid(line: Line) -> usize
    ensures { result ≡ bare_grid line }
{
    if line.parted || line.last != b'\r' {
        return line.grid;
    }
    line.grid.saturating_sub(1)
}

// What is printed of a line of which `end` bytes are kept.
fn print_kept(kept: &Lines, end: usize, whole: usize, out: &mut Pen<256>, tally: &mut Tally)
    ensures { (out.new ≡ writes (append 256 (outcome_bytes (take end kept.now) (outcome_from (take end kept.now) whole))) out.old) × (tally.new ≡ tallied (outcome_from (take end kept.now) whole) tally.old) }
{
    let size = end.min(256);
    write_line(&kept[..size], whole, out, tally);
}

// What the byte 10 after a line does.
fn end_line(state: State, out: &mut Lines) -> Ended
    ensures { (result.state ≡ done_state state) × (result.count ≡ length (done_bytes state)) × (out.new ≡ over (done_bytes state) out.old) }
{
    let kept = state.kept;
    let line = state.line;
    let mut tally = state.tally;
    let mut printed = Pen::new(out);
    if line.passed {
        printed.push(b'\n');
    } else {
        let whole = bare_grid(line).min(9223372036854775807);
        print_kept(&kept, line.end, whole, &mut printed, &mut tally);
    }
    Ended {
        state: State {
            kept,
            line: fresh_line(),
            tally,
        },
        count: printed.end,
    }
}

// How many bytes stand before the first byte 10.
fn line_end(piece: &[u8]) -> usize
    ensures { (result ≡ line_end piece.now) × (result ≤ length piece.now) }
{
    for (i, byte) in piece.iter().enumerate() {
        if *byte == b'\n' {
            return i;
        }
    }
    piece.len()
}

fn is_passed(line: Line, first: u8) -> bool
    ensures { result ≡ is_passed line first }
{
    line.passed || (line.end == 0 && first == b'#')
}

// A piece of `length` bytes, `end` of them before its first byte 10, in a line that is handed on.
fn pass_on(state: State, length: usize, end: usize) -> Fed
    ensures { result ≡ pass_on state length end }
{
    if end < length {
        return Fed {
            state: State {
                line: fresh_line(),
                ..state
            },
            used: end + 1,
            out: Out::Piece(end + 1),
        };
    }
    let line = state.line;
    Fed {
        state: State {
            line: Line {
                passed: true,
                ..line
            },
            ..state
        },
        used: end,
        out: Out::Piece(end),
    }
}

// Goes on to the end of the line or of the piece.
pub fn feed(state: State, piece: &[u8], out: &mut Lines) -> Fed
    ensures { (result ≡ fed state piece.now) × (out.new ≡ over (fed_bytes state piece.now) out.old) }
{
    let end = line_end(piece);
    if is_passed(state.line, byte_at(piece, 0)) {
        return pass_on(state, piece.len(), end);
    }
    let mut kept = state.kept;
    let longer = keep(&mut kept, state.line, &piece[..end]);
    let more = State {
        kept,
        line: longer,
        ..state
    };
    if end < piece.len() {
        let used = end + 1;
        let ended = end_line(more, out);
        return Fed {
            state: ended.state,
            used,
            out: Out::Lent(ended.count),
        };
    }
    Fed {
        state: more,
        used: end,
        out: Out::Lent(0),
    }
}

// The end of the input: a last line that no byte 10 ends is a line like others.
pub fn finish(state: State, out: &mut Lines) -> Ended
    ensures { (result.state ≡ last_state state) × (result.count ≡ length (last_bytes state)) × (out.new ≡ over (last_bytes state) out.old) }
{
    if state.line.passed || state.line.end != 0 {
        return end_line(state, out);
    }
    Ended { state, count: 0 }
}
