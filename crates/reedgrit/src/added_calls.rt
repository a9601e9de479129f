// The exported calls beside the run and the check. Each is the open call of its name, with the answer's numbers for the answer; none has a `requires`.
ghost use Rattle.std.specs.Prelude.{◌≡◌};
ghost use Rattle.reedgrit.specs.Checks.{CheckedMirroredNumbers};
ghost use Rattle.reedgrit.specs.AddedCalls.{MirroredNumbers, OverloadNumbers, AddedNumbers, RemovedNumbers, PageNumbers, ChargesNumbers};
ghost use Rattle.reedgrit.specs.AddedCalls.{ConflictNumbers, ConflictPageNumbers};
ghost use Rattle.reedgrit.specs.AddedCalls.{FreeStartNumbers, BusiestNumbers, PrecedencesNumbers, BoundNumbers, ReasonNumbers};

use crate::checks::checked_mirrored;
use answers::added_calls::{
    BusiestAnswer, ChangeAnswer, ChargesAnswer, ConflictAnswer, CountAnswer, MirroredAnswer,
    StartAnswer, bound_above_numbers, busiest_numbers, change_numbers, charges_numbers,
    conflict_numbers, count_numbers, found_numbers, mirrored_numbers, precedences_numbers,
    start_numbers,
};
use answers::source_calls::CheckAnswer;
use disjunctive::open_calls::by_precedence::{precedence_bound, precedence_reason, precedences};
use disjunctive::open_calls::of_conflicts::{conflict, conflict_page};
use disjunctive::open_calls::of_fixed_schedules::{busiest_stretch, charges, free_start, page};
use disjunctive::open_calls::{overload_test, run_mirrored};
use ranges::range::Range;
use records::record::DisjunctivePropagator;
use task_changes::lent::{add, remove};

// The version of these functions and structs.
#[unsafe(no_mangle)]
pub extern "C" fn reedgrit_abi_version() -> u32
    ensures { result ≡ 3 }
{
    3
}

// The check for a reason of a latest start.
#[unsafe(no_mangle)]
pub extern "C" fn reedgrit_check_mirrored(
    durations: &[i32],
    premises: &[i32],
    consequent: &[i32],
) -> CheckAnswer
    ensures { CheckedMirroredNumbers durations.now premises.now consequent.now result }
{
    checked_mirrored(durations, premises, consequent)
}

// The mirrored pass on the lent record and ranges.
#[unsafe(no_mangle)]
pub extern "C" fn reedgrit_run_mirrored(
    propagator: &DisjunctivePropagator,
    ranges: &mut [Range],
    posts: &mut [i32],
    atoms: &mut [i32],
) -> MirroredAnswer
    ensures { MirroredNumbers propagator.now ranges.old posts.old atoms.old result ranges.new
        posts.new atoms.new }
{
    mirrored_numbers(run_mirrored(propagator, ranges, posts, atoms))
}

// The overload test.
#[unsafe(no_mangle)]
pub extern "C" fn reedgrit_overload_test(
    propagator: &DisjunctivePropagator,
    ranges: &[Range],
) -> CountAnswer
    ensures { OverloadNumbers propagator.now ranges.now result }
{
    found_numbers(overload_test(propagator, ranges))
}

// Why the tasks cannot fit.
#[unsafe(no_mangle)]
pub extern "C" fn reedgrit_conflict(
    propagator: &DisjunctivePropagator,
    ranges: &[Range],
) -> ConflictAnswer
    ensures { ConflictNumbers propagator.now ranges.now result }
{
    conflict_numbers(conflict(propagator, ranges))
}

// The page of it.
#[unsafe(no_mangle)]
pub extern "C" fn reedgrit_conflict_page(
    propagator: &DisjunctivePropagator,
    ranges: &[Range],
    out: &mut [u8],
) -> CountAnswer
    ensures { ConflictPageNumbers propagator.now ranges.now out.old result out.new }
{
    found_numbers(conflict_page(propagator, ranges, out))
}

// A task more.
#[unsafe(no_mangle)]
pub extern "C" fn reedgrit_add(
    propagator: &mut DisjunctivePropagator,
    duration: i32,
) -> ChangeAnswer
    ensures { AddedNumbers propagator.old duration result propagator.new }
{
    change_numbers(add(propagator, duration))
}

// A task less.
#[unsafe(no_mangle)]
pub extern "C" fn reedgrit_remove(
    propagator: &mut DisjunctivePropagator,
    task: usize,
) -> ChangeAnswer
    ensures { RemovedNumbers propagator.old task result propagator.new }
{
    change_numbers(remove(propagator, task))
}

// The page of a fixed schedule.
#[unsafe(no_mangle)]
pub extern "C" fn reedgrit_page(
    propagator: &DisjunctivePropagator,
    ranges: &[Range],
    out: &mut [u8],
) -> CountAnswer
    ensures { PageNumbers propagator.now ranges.now out.old result out.new }
{
    count_numbers(page(propagator, ranges, out))
}

// The charges of a fixed schedule.
#[unsafe(no_mangle)]
pub extern "C" fn reedgrit_charges(
    propagator: &DisjunctivePropagator,
    ranges: &[Range],
    due: &[i32],
) -> ChargesAnswer
    ensures { ChargesNumbers propagator.now ranges.now due.now result }
{
    charges_numbers(charges(propagator, ranges, due))
}

// The earliest free start beside a fixed schedule.
#[unsafe(no_mangle)]
pub extern "C" fn reedgrit_free_start(
    propagator: &DisjunctivePropagator,
    ranges: &[Range],
    t: i32,
    d: i32,
) -> StartAnswer
    ensures { FreeStartNumbers propagator.now ranges.now t d result }
{
    start_numbers(free_start(propagator, ranges, t, d))
}

// Its busiest stretch.
#[unsafe(no_mangle)]
pub extern "C" fn reedgrit_busiest_stretch(
    propagator: &DisjunctivePropagator,
    ranges: &[Range],
    w: i32,
) -> BusiestAnswer
    ensures { BusiestNumbers propagator.now ranges.now w result }
{
    busiest_numbers(busiest_stretch(propagator, ranges, w))
}

// The pass by precedences on the lent record and ranges.
#[unsafe(no_mangle)]
pub extern "C" fn reedgrit_precedences(
    propagator: &DisjunctivePropagator,
    ranges: &mut [Range],
) -> CountAnswer
    ensures { PrecedencesNumbers propagator.now ranges.old result ranges.new }
{
    precedences_numbers(precedences(propagator, ranges))
}

// One task's bound by precedences.
#[unsafe(no_mangle)]
pub extern "C" fn reedgrit_precedence_bound(
    propagator: &DisjunctivePropagator,
    ranges: &[Range],
    task: usize,
) -> StartAnswer
    ensures { BoundNumbers propagator.now ranges.now task result }
{
    bound_above_numbers(precedence_bound(propagator, ranges, task))
}

// The reason of one task's bound by precedences.
#[unsafe(no_mangle)]
pub extern "C" fn reedgrit_precedence_reason(
    propagator: &DisjunctivePropagator,
    ranges: &[Range],
    task: usize,
    reason: &mut [i32],
) -> CountAnswer
    ensures { ReasonNumbers propagator.now ranges.now task reason.old result reason.new }
{
    count_numbers(precedence_reason(propagator, ranges, task, reason))
}
