// A line, taken apart: its first word, and lists of numbers.
use text::reading::{Reading, Word, is_space};
use text::words::{Run, run_end};

// Numbers of a line that are kept. A list of premises this long is refused for its length.
const NUMBERS: usize = 4096;

// Lists of a line, parted by semicolons.
const LISTS: usize = 64;

// The first word of a line, and what stands after it.
#[tactic(auto, using(crate::proofs::Runs::run_within))]
pub fn first_word(line: &[u8]) -> (&[u8], &[u8]) {
    let line = &line[run_end(line, 0, Run::Space)..];
    line.split_at(run_end(line, 0, Run::Word))
}

// The number that a word is, or none.
fn number_of(word: &[u8]) -> Option<i32> {
    let mut read = Word::Empty;
    for byte in word {
        read = read.next(*byte);
    }
    match read.reading() {
        Reading::Number(x) => Some(x),
        _ => None,
    }
}

// The lists of numbers of a line. Nothing allocates, so the numbers of all lists stand in one array: those of a list end where the next begins.
#[derive(Clone, Copy)]
pub struct Lists {
    numbers: [i32; NUMBERS],
    kept: usize,
    ends: [usize; LISTS],
    count: usize,
}

impl Lists {
    // The lists of a line, or none where a word is no number or where there are more than LISTS.
    pub fn of(line: &[u8]) -> Option<Lists> {
        let mut lists = Lists {
            numbers: [0; NUMBERS],
            kept: 0,
            ends: [0; LISTS],
            count: 0,
        };
        for list in line.split(|byte| *byte == b';') {
            lists.push(list)?;
        }
        Some(lists)
    }

    // How many there are.
    pub fn count(&self) -> usize {
        self.count
    }

    // List k, which is empty where there are not so many.
    pub fn list(&self, k: usize) -> &[i32] {
        let from = match k.checked_sub(1) {
            Some(before) => self.end(before),
            None => 0,
        };
        self.numbers.get(from..self.end(k)).unwrap_or(&[])
    }

    // The place after the last number of list k.
    fn end(&self, k: usize) -> usize {
        self.ends.get(k).copied().unwrap_or(0)
    }

    // A number more, where there is a place for it.
    fn keep(&mut self, x: i32) {
        if let Some(place) = self.numbers.get_mut(self.kept) {
            *place = x;
            self.kept += 1;
        }
    }

    // A list more.
    fn push(&mut self, list: &[u8]) -> Option<()> {
        for word in list.split(|byte| is_space(*byte)) {
            if !word.is_empty() {
                self.keep(number_of(word)?);
            }
        }
        *self.ends.get_mut(self.count)? = self.kept;
        self.count += 1;
        Some(())
    }
}

// The number of a task or a variable that a whole number names: the largest, which none has, where it is negative.
pub fn place_of(x: i32) -> usize {
    usize::try_from(x).unwrap_or(usize::MAX)
}
