// What the charges of a fixed schedule are answered by.
use integers::limits::TASKS;
use integers::refused::Refusal;

// The charges by task number, in cents, 0 in the places that no task has, and their sum.
#[derive(Clone, Copy)]
pub struct TaskCharges {
    pub charges: [u32; TASKS],
    pub total: u32,
}

// The charges, and whether the call made them; a refused call has charges of zero. They stand beside the answer, as a refused call has them too.
#[derive(Clone, Copy)]
pub struct Charges {
    pub charged: TaskCharges,
    pub answer: Result<(), Refusal>,
}
