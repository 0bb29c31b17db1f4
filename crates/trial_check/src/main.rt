// Trial rounds: a line for each, `round SOLUTION START PERCENTAGE STOP DETAIL CLUES`, where STOP is 0 for a round that is made and CLUES stand as
// text, `.` for open. tools/trial_check.py makes the file `stdout` from the words of document 02, and knows nothing of this crate.
#![tactic(auto)]

ghost use Rattle.std.specs.Prelude.{◌<◌};

use printing::{number, refusal, word};
use std::io;
use trial_rounds::trial_round;

const STARTS: [u32; 10] = [
    0, 1, 12345, 65536, 2147483647, 2147483648, 2147483649, 3000000000, 4294967294, 4294967295,
];

const PERCENTAGES: [u32; 10] = [0, 1, 25, 50, 75, 99, 100, 101, 2147483648, 4294967295];

fn show(
    rt: &impl Print,
    name: u64,
    solution: &[i32; 81],
    start: u32,
    percentage: u32,
) -> io::Result<()> {
    word(rt, b"round")?;
    number(rt, name)?;
    number(rt, u64::from(start))?;
    number(rt, u64::from(percentage))?;
    // A refused round has no clues and stands as an open grid.
    let clues = match trial_round(start, percentage, solution) {
        Ok(clues) => {
            word(rt, b" 0 0")?;
            clues
        }
        Err(stop) => {
            refusal(rt, stop)?;
            [0; 81]
        }
    };
    word(rt, b" ")?;
    let mut line = [b'?'; 81];
    let _ = text::write_text(&clues, &mut line);
    word(rt, &line)?;
    word(rt, b"\n")
}

fn percentages(rt: &impl Print, name: u64, solution: &[i32; 81], start: u32) -> io::Result<()> {
    for percentage in PERCENTAGES {
        show(rt, name, solution, start, percentage)?;
    }
    Ok(())
}

fn starts(rt: &impl Print, name: u64, solution: &[i32; 81]) -> io::Result<()> {
    for start in STARTS {
        percentages(rt, name, solution, start)?;
    }
    Ok(())
}

fn grid_of(bytes: &[u8]) -> [i32; 81] {
    text::parse_string(bytes).unwrap_or([0; 81])
}

fn with_number(mut grid: [i32; 81], cell: usize, digit: i32) -> [i32; 81]
    requires { cell < 81 }
{
    grid[cell] = digit;
    grid
}

fn main(rt: HostRuntime) -> io::Result<()> {
    let a = grid_of(
        b"123456789456789123789123456231564897564897231897231564312645978645978312978312645",
    );
    starts(&rt, 0, &a)?;
    starts(
        &rt,
        1,
        &grid_of(
            b"534678912672195348198342567859761423426853791713924856961537284287419635345286179",
        ),
    )?;
    percentages(&rt, 2, &with_number(a, 80, 0), 0)?;
    percentages(&rt, 3, &with_number(a, 0, 10), 0)?;
    percentages(&rt, 4, &with_number(a, 0, -2147483648), 0)?;
    percentages(&rt, 5, &with_number(with_number(a, 0, 2), 1, 1), 0)?;
    percentages(&rt, 6, &[0; 81], 4294967295)
}
