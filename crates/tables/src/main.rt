// Prints the unit table and the peer table as Rattle constants.
#![tactic(auto)]

use std::io;
use std::io::Write;

fn main(rt: HostRuntime) -> io::Result<()> {
    let mut text = [0u8; 7515];
    table_text::write_tables(&mut text);
    io::writer(&rt).write_all(&text)
}
