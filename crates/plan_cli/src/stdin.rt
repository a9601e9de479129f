// An input, read to its end: its numbers. Only reading is assumed. A failed read counts as the end.
ghost use mathlib.Core.List.{List, foldl};
ghost use Rattle.std.specs.Prelude.{◌≡◌, ℕ, ◌≤◌, length, take};
ghost use Rattle.std.specs.Io.KnownBytes.{Consumes};
ghost use Rattle.text.specs.Numbers.{numbers_in};
ghost use Rattle.text.specs.Scanner.{step_of, gathered};

use std::io::Read;
use text::reading::{Numbers, Scanner};

// Reads once, and answers how many bytes it put at the buffer's start: none at the input's end, and none where the read fails.
fn read_some<R: Read>(input: &mut R, buffer: &mut [u8]) -> usize
    ensures within { result ≤ length buffer.new }
    ensures bytes { Consumes (R.remaining input.old) (R.remaining input.new) (take result buffer.new) }
{
    match input.read(buffer) {
        Ok(n) => n,
        Err(_) => 0,
    }
}

// The numbers of the whole input. A loop must end, so its turns are counted to more than any input takes.
pub fn read_numbers<R: Read>(input: &mut R) -> Numbers
    ensures { (text : List ℕ) × (result ≡ gathered (numbers_in text))
        × Consumes (R.remaining input.old) (R.remaining input.new) text }
{
    let mut buffer = [0u8; 4096];
    let mut scanner = Scanner::new();
    for _ in 0..u64::MAX {
        let n = read_some(input, &mut buffer);
        scanner = scanner.feed(&buffer[..n]);
        if n == 0 {
            break;
        }
    }
    scanner.finish()
}

// Reads until the buffer is full, the input ends or a read fails, and answers how many bytes it put at the buffer's start.
pub fn read_full<R: Read>(input: &mut R, buffer: &mut [u8]) -> usize
    ensures { result ≤ length buffer.new }
{
    let mut done = 0;
    while done < buffer.len() {
        let n = read_some(input, &mut buffer[done..]);
        if n == 0 {
            return done;
        }
        done += n;
    }
    done
}
