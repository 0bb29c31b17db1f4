// Standard input into lent bytes.
#![tactic(auto)]

ghost use Rattle.std.specs.Prelude.{◌≤◌, length};

use std::io::Read;

// One read of a pipe may be short: this goes on until the bytes are full, the input ends or a read fails, and says how many were read.
pub fn read_full(rt: &impl Input, bytes: &mut [u8]) -> usize
    ensures { result ≤ length bytes.new }
{
    let mut reader = rt.reader();
    let mut done: usize = 0;
    while done < bytes.len() {
        let got = match reader.read(&mut bytes[done..]) {
            Ok(got) => got,
            Err(_) => 0,
        };
        if got == 0 {
            break;
        }
        done += got;
    }
    done
}
