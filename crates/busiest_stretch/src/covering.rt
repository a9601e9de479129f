// How much of a stretch the tasks cover, in moments.
ghost use Rattle.std.specs.Prelude.{◌≡◌, ◌+◌, ◌≤◌, min, max};
ghost use Rattle.busiest_stretch.specs.StretchMoments.{common_in, tasks_at, covered_in, Slidable};

// The tasks by the moments of their starts, and a length of stretches, whose starts are from the first task's start to the last one's. All numbers are far from
// 0 and from the largest u32.
#[derive(Clone, Copy)]
pub struct Slide<'a> {
    pub starts: &'a [u32],
    pub durations: &'a [u32],
    pub length: u32,
    pub first: u32,
    pub last: u32,
    ghost slidable: { Slidable starts.now durations.now «length» first last },
}

// The time that a task from a to b and a stretch from x to y have in common.
fn common(a: u32, b: u32, x: u32, y: u32) -> u32
    ensures { result ≡ common_in a b x y }
{
    b.min(y).saturating_sub(a.max(x))
}

impl Slide<'_> {
    // The time of the stretch from x on that tasks cover.
    pub fn covered(&self, x: u32) -> u32
        requires { x ≤ self.now.last }
        ensures { result ≡ covered_in (tasks_at self.now.starts.now self.now.durations.now) self.now.length x }
    {
        let mut sum = 0;
        for (start, duration) in self.starts.iter().zip(self.durations) {
            sum += common(*start, *start + *duration, x, x + self.length);
        }
        sum
    }
}
