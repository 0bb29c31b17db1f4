// Standard input as the sheet reader takes it (document 02, F-2), unless its first line is one of a round: then that line's grid. No more than a sheet's
// 4,096 bytes are kept; what comes after them is counted.
ghost use Rattle.std.specs.Prelude.{◌≤◌, ◌<◌};

use input::read_full;
use stops::Stop;
use text::sheets::parse_sheet;
use text::{byte_at, parse_string};

// The clues of the first 81 bytes, or of all where there are fewer.
fn first_cells(text: &[u8]) -> Result<[i32; 81], Stop> {
    if text.len() < 81 {
        return parse_string(text);
    }
    parse_string(&text[..81])
}

// Whether a separator and 81 digits stand after them.
fn goes_on_with_answer(text: &[u8]) -> bool {
    matches!(byte_at(text, 81), b' ' | b'\t' | b',' | b';')
        && (82..163).all(|index| matches!(byte_at(text, index), b'1'..=b'9'))
}

// Whether the first line may end before this byte: at the end of the text or of the line.
fn ends_at(text: &[u8], index: usize) -> bool {
    text.len() <= index || byte_at(text, index) == b'\n'
}

// The same, where one carriage return may stand before the end.
fn line_ends_at(text: &[u8], index: usize) -> bool
    requires { index < 4096 }
{
    if byte_at(text, index) == b'\r' {
        return ends_at(text, index + 1);
    }
    ends_at(text, index)
}

// Whether the first line is one of a round: a grid of 81 cells, alone or with a separator and an answer of 81 digits.
fn is_round_line(text: &[u8]) -> bool {
    if first_cells(text).is_err() {
        return false;
    }
    if goes_on_with_answer(text) {
        return line_ends_at(text, 163);
    }
    line_ends_at(text, 81)
}

// How many bytes come next: fewer than 4,096 where the input ends.
fn pass_over(rt: &impl Input) -> u64
    ensures { result ≤ 4096 }
{
    let mut piece = [0u8; 4096];
    read_full(rt, &mut piece) as u64
}

// How many bytes come until the input ends. A proved loop has to end, and nothing says that an input does: its turns are counted, up to a number
// that no run reaches.
fn count_rest(rt: &impl Input) -> u64
    ensures { result ≤ 4611686018427387904 }
{
    let mut count: u64 = 0;
    for turn in 0..1125899906842624u64 {
        let read = pass_over(rt);
        count += read;
        if read < 4096 {
            return count;
        }
    }
    count
}

// The clues of the round's line or of the sheet, or the sheet reader's stop: for 10 the whole length is counted.
pub fn read_clues(rt: &impl Input) -> Result<[i32; 81], Stop> {
    let mut sheet = [0u8; 4096];
    let read = read_full(rt, &mut sheet);
    if is_round_line(&sheet[..read]) {
        return first_cells(&sheet[..read]);
    }
    if read == 4096 {
        let rest = count_rest(rt);
        if 0 < rest {
            return Err(Stop::SheetLength((4096 + rest) as i64));
        }
    }
    parse_sheet(&sheet[..read])
}
