// Prints the card of the grid that is read from standard input (module 15), or `refused N P`.
#![tactic(auto)]

ghost use Rattle.std.specs.Prelude.{◌≡◌, ◌≤◌, length};
ghost use Rattle.card.specs.Cards.{card_of, printed};
ghost use Rattle.output.specs.Lent.{over};

use input::read_full;
use std::io;
use std::io::Write;

// What is printed of the bytes that were read, in the first lent bytes, and how many there are.
fn print(input: &[u8], out: &mut [u8; 256]) -> usize
    ensures { (result ≡ length (printed (card_of input.now))) × (out.new ≡ over (printed (card_of input.now)) out.old) × (result ≤ 256) }
{
    match card::write_card(input, out) {
        Ok(count) => count,
        Err(stop) => card::write_refusal(Err(stop), out),
    }
}

fn main(rt: HostRuntime) -> io::Result<()> {
    let mut input = [0u8; 4096];
    let read = read_full(&rt, &mut input);
    let mut out = [0u8; 256];
    let count = print(&input[..read], &mut out);
    io::writer(&rt).write_all(&out[..count])
}
