// The greatest covered time, with the least stretch start that reaches it.
#[derive(Clone, Copy)]
pub struct Stretch {
    pub covered: u32,
    pub start: i32,
}
