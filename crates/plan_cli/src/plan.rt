// The run on an input's tasks. It leaves its outcome, the starts, and posts and atoms in slices; nothing is printed here.
ghost use Rattle.std.specs.Prelude.{length};
ghost use Rattle.plan_cli.specs.RunSlices.{Plannable, Shown};
ghost use Rattle.plan_cli.specs.Printed.{planned};

use propagator::disjunctive_propagator::propagate;
use records::record::create;
use runs::outcome::Outcome;

// A record of the durations, and a run on it that raises the earliest starts. The ranges have no bars, so none is unfit.
pub fn plan(
    earliest: &mut [i32],
    latest: &[i32],
    durations: &[i32],
    posts: &mut [i32],
    atoms: &mut [i32],
) -> Outcome
    requires { Plannable (length earliest.old) posts.old atoms.old }
    ensures { Shown (planned earliest.old latest.now durations.now) result posts.new atoms.new earliest.new }
{
    let created = create(durations);
    match created.answer {
        Ok(()) => propagate(created.record, earliest, latest, true, posts, atoms).outcome,
        Err(why) => Outcome::Refused(why),
    }
}
