// The commands of the check and of the mirrored check.
use checker::checker::Verdict;
use disjunctive::{check, check_mirrored};
use replay_lines::lines::{say_contradiction, say_refused};
use replay_lines::parts::Lists;
use std::io;
use std::io::Write;

// `check`: the durations, the premises and the consequent.
pub fn answer_check<W: Write>(output: &mut W, lists: &Lists) -> io::Result<()> {
    say_verdict(output, check(lists.list(0), lists.list(1), lists.list(2)))
}

// `check-mirrored`: the same.
pub fn answer_mirrored_check<W: Write>(output: &mut W, lists: &Lists) -> io::Result<()> {
    say_verdict(
        output,
        check_mirrored(lists.list(0), lists.list(1), lists.list(2)),
    )
}

// The line of a verdict.
fn say_verdict<W: Write>(output: &mut W, verdict: Verdict) -> io::Result<()> {
    match verdict {
        Verdict::Passed => writeln!(output, "passed"),
        Verdict::NotPassed => writeln!(output, "not-passed"),
        Verdict::Contradiction(x) => say_contradiction(output, x),
        Verdict::Refused(why) => say_refused(output, why.number()),
    }
}
