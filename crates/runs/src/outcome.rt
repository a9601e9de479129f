use integers::refused::Refusal;

// How a run ended, with the number of its posts: all tasks considered; a set of tasks overloads its span, with the first atom and the atom count
// of its reason; the last post is above its task's latest start; or why the input is refused.
#[derive(Clone, Copy)]
pub enum Outcome {
    Done(usize),
    Overload {
        posts: usize,
        first: usize,
        count: usize,
    },
    Emptied(usize),
    Refused(Refusal),
}

// How a run ended, and how many leaf changes the source would have made; 0 where the input was refused.
#[derive(Clone, Copy)]
pub struct Finished {
    pub outcome: Outcome,
    pub changes: usize,
}
