// The stops (refusals) of the paper's table and of document 02, one error type for all calls: "A refusal hands back only number and detail".
#![tactic(auto)]

ghost use Rattle.std.specs.Prelude.{◌≡◌};
ghost use Rattle.stops.specs.Stops.{row_of};

// A place or a length stands beside its stop as an `i64`, the type that `detail` answers in; a caller's own digit, cell or percentage as it was handed in.
#[derive(Clone, Copy)]
pub enum Stop {
    // A text's length, which is not 81.
    TextLength(i64),
    // The index of the first byte of a text that is no cell.
    OtherByte(i64),
    // The first cell whose clue is outside 0 to 9.
    BadClue(i64),
    // A digit outside 1 to 9.
    BadDigit(i32),
    // A cell above 80.
    NoCell(u32),
    // The length of lent bytes that are too few.
    TooFewBytes(i64),
    // Where a record's bytes are missing, or left over.
    RecordBytes(i64),
    // The offset of a record's entry that names no candidate, does not rise, or stands on a clue.
    RecordEntry(i64),
    // The offset of the removal of a candidate that is not fresh, or from a cell with a clue or an entry.
    NotFresh(i64),
    // The first cell whose mask holds what the fresh one lacks, or is a clue cell's and not its digit.
    BadMask(i64),
    // The length of a sheet that is longer than 4,096 bytes.
    SheetLength(i64),
    // How many cells a sheet has, which is not 81.
    SheetCells(i64),
    // The first cell with an entry on a clue, or an entry outside 0 to 9.
    BadEntry(i64),
    // A cell with a clue, in which a digit was to be entered or rubbed out.
    ClueCell(u32),
    // A cell that is already entered.
    AlreadyEntered(u32),
    // A cell that is not entered, whose entry was to be rubbed out.
    NotEntered(u32),
    // The offset of the entry count of a record with entries, which was to be moved back.
    RecordEntries(i64),
    // The index of the first step of a list that names no instance, whose condition does not hold or that removes nothing.
    BadStep(i64),
    // How many steps a list has, which are more than 729.
    TooManySteps(i64),
    // A percentage above 100.
    BadPercentage(u32),
    // A solution that does not pass the verifier; nothing stands beside it.
    BadSolution,
    // A board with no open cell without an entry, which has no difficulty; nothing stands beside it.
    NoOpenCell,
}

// The paper's number of a stop: written out, since it is the paper's order and not this file's.
pub fn number(stop: Stop) -> u8
    ensures { result ≡ (row_of stop).number }
{
    match stop {
        Stop::TextLength(_) => 1,
        Stop::OtherByte(_) => 2,
        Stop::BadClue(_) => 3,
        Stop::BadDigit(_) => 4,
        Stop::NoCell(_) => 5,
        Stop::TooFewBytes(_) => 6,
        Stop::RecordBytes(_) => 7,
        Stop::RecordEntry(_) => 8,
        Stop::NotFresh(_) => 9,
        Stop::BadMask(_) => 9,
        Stop::SheetLength(_) => 10,
        Stop::SheetCells(_) => 11,
        Stop::BadEntry(_) => 8,
        Stop::ClueCell(_) => 12,
        Stop::AlreadyEntered(_) => 13,
        Stop::NotEntered(_) => 13,
        Stop::RecordEntries(_) => 14,
        Stop::BadStep(_) => 15,
        Stop::TooManySteps(_) => 16,
        Stop::BadPercentage(_) => 17,
        Stop::BadSolution => 18,
        Stop::NoOpenCell => 19,
    }
}

// What stands beside a stop.
pub fn detail(stop: Stop) -> i64
    ensures { result ≡ (row_of stop).detail }
{
    match stop {
        Stop::TextLength(length) => length,
        Stop::OtherByte(index) => index,
        Stop::BadClue(cell) => cell,
        Stop::BadDigit(digit) => digit as i64,
        Stop::NoCell(cell) => cell as i64,
        Stop::TooFewBytes(length) => length,
        Stop::RecordBytes(place) => place,
        Stop::RecordEntry(offset) => offset,
        Stop::NotFresh(offset) => offset,
        Stop::BadMask(cell) => cell,
        Stop::SheetLength(length) => length,
        Stop::SheetCells(count) => count,
        Stop::BadEntry(cell) => cell,
        Stop::ClueCell(cell) => cell as i64,
        Stop::AlreadyEntered(cell) => cell as i64,
        Stop::NotEntered(cell) => cell as i64,
        Stop::RecordEntries(offset) => offset,
        Stop::BadStep(index) => index,
        Stop::TooManySteps(count) => count,
        Stop::BadPercentage(percentage) => percentage as i64,
        Stop::BadSolution => 0,
        Stop::NoOpenCell => 0,
    }
}
