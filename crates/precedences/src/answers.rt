// How a pass ends.
use integers::refused::Refusal;

// The earliest starts are raised; the lowest task whose bound passes its latest start; or why the input is refused.
#[derive(Clone, Copy)]
pub enum Precedences {
    Done,
    Emptied(usize),
    Refused(Refusal),
}
