// Every call of the candidate set, and of the masks and digits beneath it, on all 65,536 masks. A line for each call and each
// number that it is handed beside the mask, `NAME NUMBER CHECKSUM`; where there is none, `NAME CHECKSUM`.
// tools/candidates_sweep.py makes the file `stdout` from the paper's words and sets of digits, and knows nothing of this crate.
// A line that differs names a call, and the number handed to it, at which some mask's answer is not what the paper says.
#![tactic(auto)]

use calls::Call;
use codes::fold;
use std::io;
use std::io::Write;

mod calls;
mod codes;

const DIGITS: [i32; 14] = [
    -2147483648,
    -1,
    0,
    1,
    2,
    3,
    4,
    5,
    6,
    7,
    8,
    9,
    10,
    2147483647,
];

const MASKS: [u16; 6] = [0, 1, 73, 292, 511, 65535];

// The answers of a call on all masks, rising.
fn checksum(call: Call) -> u64 {
    let mut sum: u64 = 0;
    for mask in 0..=u16::MAX {
        sum = fold(sum, calls::answer(call, mask));
    }
    sum
}

fn write(rt: &impl Print, bytes: &[u8]) -> io::Result<()> {
    io::writer(rt).write_all(bytes)
}

fn line(rt: &impl Print, name: &[u8], call: Call) -> io::Result<()> {
    write(rt, name)?;
    println!(rt; " {}", checksum(call))
}

fn number_line(rt: &impl Print, name: &[u8], number: u64, call: Call) -> io::Result<()> {
    write(rt, name)?;
    print!(rt; " {number}")?;
    line(rt, b"", call)
}

fn digit_line(rt: &impl Print, name: &[u8], digit: i32, call: Call) -> io::Result<()> {
    write(rt, name)?;
    print!(rt; " {digit}")?;
    line(rt, b"", call)
}

fn plain_lines(rt: &impl Print) -> io::Result<()> {
    line(rt, b"new", Call::New)?;
    line(rt, b"full", Call::Full)?;
    line(rt, b"clear", Call::Clear)?;
    line(rt, b"len", Call::Len)?;
    line(rt, b"is_empty", Call::IsEmpty)?;
    line(rt, b"single_candidate", Call::SingleCandidate)?;
    line(rt, b"iter", Call::Iter)?;
    line(rt, b"digit_count", Call::DigitCount)?;
    line(rt, b"lowest_digit", Call::LowestDigit)?;
    line(rt, b"lose_lowest", Call::LoseLowest)?;
    line(rt, b"is_none", Call::IsNone)?;
    line(rt, b"is_one", Call::IsOne)?;
    line(rt, b"is_two", Call::IsTwo)?;
    Ok(())
}

fn digit_lines(rt: &impl Print, digit: i32) -> io::Result<()> {
    digit_line(rt, b"single", digit, Call::Single(digit))?;
    digit_line(rt, b"contains", digit, Call::Contains(digit))?;
    digit_line(rt, b"insert", digit, Call::Insert(digit))?;
    digit_line(rt, b"remove", digit, Call::Remove(digit))?;
    digit_line(rt, b"place_of", digit, Call::PlaceOf(digit))?;
    Ok(())
}

fn place_lines(rt: &impl Print, place: usize) -> io::Result<()> {
    number_line(rt, b"has_digit", place as u64, Call::HasDigit(place))?;
    number_line(rt, b"digit_mask", place as u64, Call::DigitMask(place))?;
    number_line(rt, b"lose_digit", place as u64, Call::LoseDigit(place))?;
    number_line(rt, b"first_digit", place as u64, Call::FirstDigit(place))?;
    number_line(rt, b"digit_at", place as u64, Call::DigitAt(place))?;
    Ok(())
}

fn mask_lines(rt: &impl Print, mask: u16) -> io::Result<()> {
    number_line(rt, b"lose", mask as u64, Call::Lose(mask))?;
    number_line(rt, b"meet", mask as u64, Call::Meet(mask))?;
    number_line(rt, b"join", mask as u64, Call::Join(mask))?;
    Ok(())
}

// The lines of a place, and of the digit and the second mask at that index.
fn lines_at(rt: &impl Print, i: usize) -> io::Result<()> {
    place_lines(rt, i)?;
    if i < 14 {
        digit_lines(rt, DIGITS[i])?;
    }
    if i < 6 {
        mask_lines(rt, MASKS[i])?;
    }
    Ok(())
}

fn main(rt: HostRuntime) -> io::Result<()> {
    plain_lines(&rt)?;
    for i in 0..18 {
        lines_at(&rt, i)?;
    }
    Ok(())
}
