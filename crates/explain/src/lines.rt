// Writing out a line of the program. There is room for every line: the longest, a Lone whose digit 20 cells lose, has under 200 bytes.
use card::lines::LinesPen;
use std::io;
use std::io::Write;

pub fn write_out(rt: &impl Print, line: &LinesPen) -> io::Result<()> {
    if line.end <= 256 {
        io::writer(rt).write_all(&line.bytes[..line.end])?;
    }
    Ok(())
}

// The same with its final newline.
pub fn write_line(rt: &impl Print, line: &mut LinesPen) -> io::Result<()> {
    line.push(b'\n');
    write_out(rt, line)
}
