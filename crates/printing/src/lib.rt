// What the checking programs print to standard output: words, numbers, stops, and checksums of masks.
#![tactic(auto)]

ghost use Rattle.std.specs.Prelude.{◌≡◌};
ghost use Rattle.printing.specs.code.Sums.{folded, sum_of};

use std::io;
use std::io::Write;
use stops::Stop;

pub fn word(rt: &impl Print, bytes: &[u8]) -> io::Result<()> {
    io::writer(rt).write_all(bytes)
}

// A number after a space.
pub fn number(rt: &impl Print, n: u64) -> io::Result<()> {
    print!(rt; " {n}")
}

// The same with its sign.
fn signed(rt: &impl Print, n: i64) -> io::Result<()> {
    print!(rt; " {n}")
}

// A stop's number and what stands beside it.
pub fn refusal(rt: &impl Print, stop: Stop) -> io::Result<()> {
    number(rt, stops::number(stop) as u64)?;
    signed(rt, stops::detail(stop))
}

// A number joins a checksum.
pub fn fold(sum: u64, n: u16) -> u64
    ensures { result ≡ folded sum n }
{
    (sum % 72057594037927931 * 31 + n as u64) % 72057594037927931
}

// The checksum of 81 masks.
pub fn mask_sum(masks: &[u16; 81]) -> u64
    ensures { result ≡ sum_of masks.now 81 }
{
    let mut sum: u64 = 0;
    for mask in masks {
        sum = fold(sum, *mask);
    }
    sum
}
