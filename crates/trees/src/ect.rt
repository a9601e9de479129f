// The ect of a set of tasks as an answer: a moment, or none where the set has no task, for which the source answers i32::MIN.
ghost use Rattle.std.specs.Prelude.{◌≡◌};
ghost use Rattle.trees.specs.Ects.{moment_of, decoded, exceeds, raised_to};

// The ect that a node's word codes: 0 codes no task.
#[tactic(auto, unfolding(crate::specs::Ects::decoded))]
pub fn decoded(word: u32) -> Option<u32>
    ensures { moment_of result ≡ decoded word }
{
    if word == 0 {
        return None;
    }
    Some(word)
}

// Whether the ect is past the moment; that of no task is past none.
pub fn exceeds(ect: Option<u32>, moment: u32) -> bool
    ensures { result ≡ exceeds (moment_of ect) moment }
{
    ect.is_some_and(|ect| ect > moment)
}

// A start, raised to the ect where that is later; that of no task raises nothing.
pub fn raised(ect: Option<u32>, start: u32) -> u32
    ensures { result ≡ raised_to start (moment_of ect) }
{
    ect.map_or(start, |ect| start.max(ect))
}
