// An input, read line by line. A failed read counts as its end.
use std::io::Read;

// The next byte of the input, or none at its end.
fn next_byte<R: Read>(input: &mut R) -> Option<u8> {
    let mut one = [0u8; 1];
    match input.read(&mut one) {
        Ok(n) if n > 0 => Some(one[0]),
        _ => None,
    }
}

// The next line, without its line feed, and whether the input goes on: after its end nothing is read, since a terminal would wait for more. The last line has
// no line feed, and may be empty. What does not fit `buffer` is the next line.
pub fn next_line<'a, R: Read>(input: &mut R, buffer: &'a mut [u8]) -> (&'a [u8], bool) {
    for i in 0..buffer.len() {
        match next_byte(input) {
            Some(b'\n') => return (&buffer[..i], true),
            Some(byte) => buffer[i] = byte,
            None => return (&buffer[..i], false),
        }
    }
    (buffer, true)
}
