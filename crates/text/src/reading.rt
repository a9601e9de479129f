// Numbers in text: words separated by white space, each a decimal number that fits an i32.
ghost use Rattle.std.specs.Prelude.{◌≡◌, ◌+◌, min, set};
ghost use mathlib.Core.List.{foldl};
ghost use Rattle.text.specs.Numbers.{space, ranged, numbers_in};
ghost use Rattle.text.specs.Scanner.{digit_after, next_of, given, reading_of, MOST, no_numbers, not_numbers};
ghost use Rattle.text.specs.Scanner.{with_number, reading_added, at_start, end_of, step_of};
ghost use Rattle.text.specs.Scanner.{gathered};

use integers::limits;
use integers::limits::TASKS;
use integers::moments::start_of;

// How many numbers are kept: a count of tasks, and three numbers for each task.
pub const KEPT: usize = 1 + 3 * TASKS;

// The moment of 0, which is the largest magnitude of a negative i32.
const ZERO_AT: u32 = limits::ZERO_AT as u32;

// The largest i32.
const LARGEST: u32 = i32::MAX as u32;

// The least magnitude that no i32 has. Every larger one counts as this one, so that a word may have any number of digits.
const BEYOND: u32 = ZERO_AT + 1;

// The largest usize, where the count of numbers stops.
const MOST: usize = usize::MAX;

// The word that is being read.
#[derive(Clone, Copy)]
pub enum Word {
    // no byte of it yet
    Empty,
    // a minus sign and nothing else
    Minus,
    // digits: whether a minus sign comes before them, and their value, which stops at BEYOND
    Digits(bool, u32),
    // bytes that no number begins with
    Wrong,
}

// What a word is once it has ended.
#[derive(Clone, Copy)]
pub enum Reading {
    // no word at all
    Nothing,
    Number(i32),
    // a word that is no number
    Wrong,
}

// The numbers of the words that have ended.
#[derive(Clone, Copy)]
pub struct Numbers {
    // every word was a number; where one was not, all else is 0
    pub valid: bool,
    // how many there are, up to MOST
    pub count: usize,
    // the first of them, and zeros after them
    pub kept: [i32; KEPT],
}

// The state between two bytes of input: what has ended, and what has begun.
#[derive(Clone, Copy)]
pub struct Scanner {
    pub numbers: Numbers,
    pub word: Word,
}

// White space is a space, a tab, a line feed, a vertical tab, a form feed or a carriage return.
#[tactic(auto, unfolding(crate::specs::Numbers::space))]
pub fn is_space(byte: u8) -> bool
    ensures { result ≡ space byte }
{
    matches!(byte, b' ' | b'\t'..=b'\r')
}

// A byte after a magnitude. A tenth of BEYOND decides whether the new magnitude passes it, so that nothing overflows.
fn with_digit(negative: bool, magnitude: u32, byte: u8) -> Word
    ensures { result ≡ digit_after negative magnitude byte }
{
    if byte < b'0' || b'9' < byte {
        return Word::Wrong;
    }
    if BEYOND / 10 < magnitude {
        return Word::Digits(negative, BEYOND);
    }
    let digit = (byte - b'0') as u32;
    let larger = magnitude * 10 + digit;
    Word::Digits(negative, larger)
}

impl Word {
    // The word with a byte more.
    pub fn next(self, byte: u8) -> Word
        ensures { result ≡ next_of self byte }
    {
        match self {
            Word::Empty => {
                if byte == b'-' {
                    return Word::Minus;
                }
                with_digit(false, 0, byte)
            }
            Word::Minus => with_digit(true, 0, byte),
            Word::Digits(negative, magnitude) => with_digit(negative, magnitude, byte),
            Word::Wrong => Word::Wrong,
        }
    }

    // The word ends here.
    pub fn reading(self) -> Reading
        ensures { result ≡ reading_of self }
    {
        match self {
            Word::Empty => Reading::Nothing,
            Word::Minus => Reading::Wrong,
            Word::Digits(negative, magnitude) => signed(negative, magnitude),
            Word::Wrong => Reading::Wrong,
        }
    }
}

// The number of a sign and a magnitude, where an i32 holds it.
fn signed(negative: bool, magnitude: u32) -> Reading
    ensures { result ≡ given (ranged negative magnitude) }
{
    if negative {
        if ZERO_AT < magnitude {
            return Reading::Wrong;
        }
        return Reading::Number(start_of(ZERO_AT - magnitude));
    }
    if LARGEST < magnitude {
        return Reading::Wrong;
    }
    Reading::Number(start_of(ZERO_AT + magnitude))
}

// One more, up to MOST.
fn one_more(count: usize) -> usize
    ensures { result ≡ min (count + 1) MOST }
{
    if count == MOST {
        return count;
    }
    count + 1
}

// The numbers with x at its place, where there is one.
fn stored(kept: [i32; KEPT], at: usize, x: i32) -> [i32; KEPT]
    ensures { result ≡ set kept at x }
{
    let mut numbers = kept;
    if at < KEPT {
        numbers[at] = x;
    }
    numbers
}

impl Numbers {
    // No word has ended.
    fn none() -> Numbers
        ensures { result ≡ no_numbers }
    {
        Numbers {
            valid: true,
            count: 0,
            kept: [0; KEPT],
        }
    }

    // Some word was no number.
    fn invalid() -> Numbers
        ensures { result ≡ not_numbers }
    {
        Numbers {
            valid: false,
            count: 0,
            kept: [0; KEPT],
        }
    }

    // A number more; one word that is no number makes all of them invalid.
    fn with_number(self, x: i32) -> Numbers
        ensures { result ≡ with_number self x }
    {
        if !self.valid {
            return self;
        }
        let count = self.count;
        let kept = self.kept;
        Numbers {
            valid: true,
            count: one_more(count),
            kept: stored(kept, count, x),
        }
    }

    // A word more.
    fn with_reading(self, reading: Reading) -> Numbers
        ensures { result ≡ reading_added self reading }
    {
        match reading {
            Reading::Nothing => self,
            Reading::Number(x) => self.with_number(x),
            Reading::Wrong => Numbers::invalid(),
        }
    }
}

impl Scanner {
    // Nothing is read yet.
    pub fn new() -> Scanner
        ensures { result ≡ at_start }
    {
        Scanner {
            numbers: Numbers::none(),
            word: Word::Empty,
        }
    }

    // White space ends a word, and any other byte belongs to it.
    pub fn step(self, byte: u8) -> Scanner
        ensures { result ≡ step_of self byte }
    {
        let numbers = self.numbers;
        let word = self.word;
        if is_space(byte) {
            return Scanner {
                numbers: numbers.with_reading(word.reading()),
                word: Word::Empty,
            };
        }
        Scanner {
            numbers,
            word: word.next(byte),
        }
    }

    // A piece of the input; feeding two pieces is feeding them as one.
    pub fn feed(self, bytes: &[u8]) -> Scanner
        ensures { result ≡ foldl step_of self bytes.now }
    {
        let mut scanner = self;
        for byte in bytes {
            scanner = scanner.step(*byte);
        }
        scanner
    }

    // The input ends here.
    pub fn finish(self) -> Numbers
        ensures { result ≡ end_of self }
    {
        let numbers = self.numbers;
        let word = self.word;
        numbers.with_reading(word.reading())
    }
}

// The numbers of a whole text.
pub fn numbers_of(bytes: &[u8]) -> Numbers
    ensures { result ≡ gathered (numbers_in bytes.now) }
{
    Scanner::new().feed(bytes).finish()
}
