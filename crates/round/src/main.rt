// Scores a round: standard input has a grid a line, with the printed answer after it, and standard output a line for each; a summary comes on standard
// error. README.md has the line's fields.
#![tactic(auto)]

use rounds::cuts::{Out, State, feed, finish, fresh_state};
use rounds::tallies::write_summary;
use std::io;
use std::io::{Read, Write};

fn write_first(to: &mut impl Write, bytes: &[u8], count: usize) -> io::Result<()> {
    if count <= bytes.len() {
        to.write_all(&bytes[..count])?;
    }
    Ok(())
}

fn hand_out(rt: &impl Print, made: Out, piece: &[u8], out: &[u8; 256]) -> io::Result<()> {
    match made {
        Out::Piece(count) => write_first(&mut io::writer(rt), piece, count),
        Out::Lent(count) => write_first(&mut io::writer(rt), out, count),
    }
}

// All lines of a piece. Each turn uses a byte at least.
fn feed_piece(rt: &impl Print, state: State, piece: &[u8]) -> io::Result<State> {
    let mut now = state;
    let mut out = [0u8; 256];
    let mut rest = piece;
    while !rest.is_empty() {
        let fed = feed(now, rest, &mut out);
        hand_out(rt, fed.out, rest, &out)?;
        let next = fed.state;
        now = next;
        rest = &rest[fed.used..];
    }
    Ok(now)
}

// One read, and what it leaves; nothing where the input ends. A read that fails ends the input.
fn read_some(rt: &(impl Input + Print), state: State) -> io::Result<Option<State>> {
    let mut piece = [0u8; 65536];
    let count = rt.reader().read(&mut piece).unwrap_or(0);
    if count == 0 {
        return Ok(None);
    }
    Ok(Some(feed_piece(rt, state, &piece[..count])?))
}

// A proved loop has to end, and nothing says that an input does: its turns are counted, up to a number that no run reaches.
fn read_all(rt: &(impl Input + Print)) -> io::Result<State> {
    let mut now = fresh_state();
    for _ in 0..u64::MAX {
        let Some(next) = read_some(rt, now)? else {
            break;
        };
        now = next;
    }
    Ok(now)
}

fn main(rt: HostRuntime) -> io::Result<()> {
    let mut out = [0u8; 256];
    let ended = finish(read_all(&rt)?, &mut out);
    write_first(&mut io::writer(&rt), &out, ended.count)?;
    let last = ended.state;
    let count = write_summary(last.tally, &mut out);
    write_first(&mut rt.stderr(), &out, count)
}
