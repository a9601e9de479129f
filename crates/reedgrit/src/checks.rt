// The checks' verdicts as numbers.
ghost use Rattle.reedgrit.specs.Checks.{CheckedNumbers, CheckedMirroredNumbers};

use answers::source_calls::{CheckAnswer, verdict_numbers};
use checker::checker::{check, check_mirrored};

// The check of premises and a consequent, of one atom or none, against the tasks.
pub fn checked(durations: &[i32], premises: &[i32], consequent: &[i32]) -> CheckAnswer
    ensures { CheckedNumbers durations.now premises.now consequent.now result }
{
    verdict_numbers(check(durations, premises, consequent))
}

// The check for a reason of a latest start.
pub fn checked_mirrored(durations: &[i32], premises: &[i32], consequent: &[i32]) -> CheckAnswer
    ensures { CheckedMirroredNumbers durations.now premises.now consequent.now result }
{
    verdict_numbers(check_mirrored(durations, premises, consequent))
}
