// The bounds of a domain without holes, as two words. 0 is no bound, so that both words only grow.
ghost use Rattle.std.specs.Prelude.{◌≡◌};
ghost use Rattle.checking.specs.Atoms.{kind_of};
ghost use Rattle.checking.specs.BoundWords.{applied_words, consistent_words, bounds_of_task_in_words};

use crate::atomic_constraint::Comparison;
use crate::start_bounds::TaskBounds;
use integers::moments::moment_of;

// The lower bound's moment, and the complement of the upper bound's.
#[derive(Clone, Copy)]
pub struct BoundWords {
    pub lower: u32,
    pub upper: u32,
}

impl BoundWords {
    // Apply an atom that makes no hole.
    pub fn apply(self, comparison: Comparison, value: i32) -> BoundWords
        ensures { result ≡ applied_words self (kind_of comparison) value }
    {
        let m = moment_of(value);
        let lower = self.lower.max(m);
        let upper = self.upper.max(u32::MAX - m);
        match comparison {
            Comparison::GreaterEqual => BoundWords { lower, ..self },
            Comparison::LessEqual => BoundWords { upper, ..self },
            Comparison::Equal => BoundWords { lower, upper },
            Comparison::NotEqual => self,
        }
    }

    // Whether the bounds leave a value.
    pub fn is_consistent(self) -> bool
        ensures { result ≡ consistent_words self }
    {
        self.lower <= u32::MAX - self.upper
    }

    // The bounds of a start that the words are, where there are two.
    pub fn bounds(self) -> Option<TaskBounds>
        ensures { result ≡ bounds_of_task_in_words self }
    {
        if self.lower == 0 || self.upper == 0 {
            return None;
        }
        Some(TaskBounds {
            est: self.lower,
            lst: u32::MAX - self.upper,
        })
    }
}
