// The difficulty figure (document 02, F-14): its quotient, its remainder and the cells that the points are divided by.
use crate::lines;
use board::Board;
use difficulty::difficulty;
use output::Pen;
use rounds::fields::push_rating;
use std::io;

pub fn print_difficulty(rt: &impl Print, board: &Board) -> io::Result<()> {
    let mut room = [0; 256];
    let mut line = Pen::new(&mut room);
    line.push_word(b"difficulty ");
    push_rating(&mut line, difficulty(board));
    lines::write_line(rt, &mut line)
}
