// The range of a task's starts.
use integers::limits::BARS;

// A task may start from `earliest` to `latest`, but not at its barred starts: the first `count` places, ascending. The places past them are not read.
#[repr(C)]
#[derive(Clone, Copy)]
pub struct Range {
    pub earliest: i32,
    pub latest: i32,
    pub count: usize,
    pub barred: [i32; BARS],
}
