// An input, read line by line; each line's answer goes to an output.
use crate::commands::Session;
use replay_lines::input::next_line;
use std::io;
use std::io::{Read, Write};

// The longest line that is read as one.
const LINE: usize = 65536;

// Answers the commands of an input until it ends. A proved loop has to end, so the lines are counted to a number that no input reaches.
pub fn serve<R: Read, W: Write>(input: &mut R, output: &mut W) -> io::Result<()> {
    let mut buffer = [0u8; LINE];
    let mut session = Session::new();
    for _ in 0..u64::MAX {
        let (line, more) = next_line(input, &mut buffer);
        session.answer_line(output, line)?;
        if !more {
            break;
        }
    }
    Ok(())
}
