// The disjunctive propagator: edge finding on one machine, with a reason for each post.
ghost use Rattle.std.specs.Prelude.{◌||◌, ◌≡◌, ◌≤◌, ◌<◌, ℕ, ◌+◌, ◌*◌, ◌^◌, length, get_or};
ghost use Rattle.integers.specs.Limits.{ATOMS, TASKS};
ghost use Rattle.trees.specs.Ects.{exceeds, raised_to};
ghost use Rattle.trees.specs.Leaves.{ect, ect_bar_of, sum};
ghost use Rattle.trees.specs.Operations.{Held, HeldLeaves, Answers, Tall};
ghost use Rattle.explanations.specs.Explanations.{ConflictExplainable, PropagationExplainable};
ghost use Rattle.propagator.specs.Ran.{Runnable, RunLeft, Ran};
ghost use Rattle.propagator.specs.RunArrays.{theta_shown};
ghost use Rattle.propagator.specs.FilledTheta.{Fillable, Filled};
ghost use Rattle.propagator.specs.EdgeFinding.{HeldPast, JoinedPast, ConflictExplained, conflict_of, EdgeFindable, EdgeFound};
ghost use Rattle.propagator.specs.LeavingTheta.{Movable, Recoloured, left_for, turn_known};
ghost use Rattle.propagator.specs.Candidates.{nothing_written, counted, Proposes, reason_of, Posted, Considerable, Considered, AllConsidered};
ghost use Rattle.propagator.specs.Candidates.{ResponsibleFor};

use crate::task_arrays::TaskArrays;
use explanations::explanations::{create_conflict_explanation, create_propagation_explanation};
use integers::limits::{TASKS, TREEWORDS};
use integers::moments::{completions, moments_of, start_of};
use post_words::write_post;
use records::record::DisjunctivePropagator;
use records::refusals::run_refusal;
use runs::outcome::{Finished, Outcome};
use sorts::{sort_numbers_down, sort_with_ranks};
use trees::complete_tree::TreeSize;
use trees::disjunctive_task::{DisjunctiveTask, LeafPlace, LocalId, leaf_of, task_of};
use trees::ect::{exceeds, raised};
use trees::theta_lambda_tree::ThetaLambdaTree;

// What a run hands back: the record, how the run ended, and its leaf changes.
#[derive(Clone, Copy)]
pub struct Run {
    pub record: DisjunctivePropagator,
    pub outcome: Outcome,
    pub changes: usize,
}

// A run on the record and the ranges, told whether their bars fit. It hands back the record, which no run changes.
pub fn propagate(
    record: DisjunctivePropagator,
    earliest: &mut [i32],
    latest: &[i32],
    bars_fit: bool,
    posts: &mut [i32],
    atoms: &mut [i32],
) -> Run
    ensures { Ran «record» earliest.old latest.now bars_fit posts.old atoms.old result
        earliest.new posts.new atoms.new }
{
    if let Err(why) = run_refusal(
        &record,
        earliest,
        latest,
        bars_fit,
        posts.len(),
        atoms.len(),
    ) {
        return Run {
            record,
            outcome: Outcome::Refused(why),
            changes: 0,
        };
    }
    let finished = run_accepted(&record, earliest, latest, posts, atoms);
    Run {
        record,
        outcome: finished.outcome,
        changes: finished.changes,
    }
}

// The core of a run on a record's tasks, for this pass and the mirrored one. It tests nothing, so it is not an open call.
pub fn run_accepted(
    record: &DisjunctivePropagator,
    earliest: &mut [i32],
    latest: &[i32],
    posts: &mut [i32],
    atoms: &mut [i32],
) -> Finished
    requires { Runnable «record».now earliest.old latest.now (length posts.old) (length atoms.old) }
    ensures { RunLeft «record».now earliest.old latest.now posts.old atoms.old result.outcome result.changes
        earliest.new posts.new atoms.new }
{
    let n = record.count;
    let mut est: [u32; TASKS] = [0; TASKS];
    moments_of(&mut est, earliest);
    let mut lst: [u32; TASKS] = [0; TASKS];
    moments_of(&mut lst, latest);
    let mut lct: [u32; TASKS] = [0; TASKS];
    completions(&mut lct, &lst, &record.durations, n);
    let mut reverse_mapping: [usize; TASKS] = [0; TASKS];
    let mut mapping: [u32; TASKS] = [0; TASKS];
    sort_with_ranks(&mut reverse_mapping, &mut mapping, n, &est);
    let mut sorted_tasks: [usize; TASKS] = [0; TASKS];
    sort_numbers_down(&mut sorted_tasks, n, &lct);
    let mut tree = ThetaLambdaTree::new(n);
    let inner = tree.number_of_internal_nodes;
    let size = TreeSize {
        inner,
        height: tree.height,
        leaves: n,
    };
    let tasks = TaskArrays {
        est: &est,
        lst: &lst,
        lct: &lct,
        durations: &record.durations,
        mapping: &mapping,
        reverse_mapping: &reverse_mapping,
        sorted_tasks: &sorted_tasks,
        size,
    };
    let ect = fill(&mut tree.nodes, &tasks);
    let past = join_where_past(&mut tree.nodes, inner, ect, lct[sorted_tasks[0]]);
    edge_finding(&mut tree.nodes, earliest, posts, atoms, &tasks, ect, past)
}

// Performs the edge-finding algorithm (see `DisjunctivePropagator` for an intuition and the work on which it is based). Every task is in Theta, the sorted
// tasks go from there to Lambda one by one, and the tasks of Lambda are considered after each.
//
// A move to Lambda never raises ect_bar. So where the last known ect_bar is not past the next lct, that level has no candidate and no overload. The level is
// then the gray leaf and its count alone, and the inner nodes are left until a level needs the root. One such level right after a level that needed the root
// is joined all the same: a leaf's ancestors are fewer than all inner nodes. The first known ect_bar is `ect`, that of all tasks. Where it is `past` the first
// lct, the inner nodes are joined already.
fn edge_finding(
    nodes: &mut [u32; TREEWORDS],
    earliest: &mut [i32],
    posts: &mut [i32],
    atoms: &mut [i32],
    tasks: &TaskArrays,
    ect: u32,
    past: bool,
) -> Finished
    requires { EdgeFindable tasks.now ect past nodes.old earliest.old posts.old atoms.old }
    ensures { (s : EdgeFindable tasks.now ect past nodes.old earliest.old posts.old atoms.old)
        → EdgeFound s.J s.est_order s.lct_order posts.old atoms.old result.outcome result.changes earliest.new
        posts.new atoms.new }
{
    let n = tasks.size.leaves;
    let mut w = Written::new(n);
    let mut last_ect_bar = ect;
    let mut joined = past;
    let mut needed = past;
    for index in 0..n - 1 {
        let j = tasks.sorted_tasks[index];
        let lct_j = tasks.lct[j];
        if overloads(nodes, last_ect_bar, lct_j) {
            return w.overloaded(atoms, nodes, tasks, lct_j);
        }
        let lct_next = tasks.lct[tasks.sorted_tasks[index + 1]];
        let before = needed;
        needed = last_ect_bar > lct_next;
        let joins = needed | before;
        let taken = is_turn_known(tasks, j, last_ect_bar, needed);
        let turns_known = usize::from(taken);
        leave_theta(nodes, tasks, j, joined, joins, taken);
        joined = joins;
        w = w.counted(2 + turns_known);
        if needed {
            w = match consider_all(
                nodes,
                earliest,
                posts,
                atoms,
                w,
                tasks,
                lct_next,
                n - turns_known,
            ) {
                Ok(on) => on,
                Err(Emptied(at)) => return at.finished(Outcome::Emptied(at.posts)),
            };
            last_ect_bar = ect_bar_moment(nodes);
        }
    }
    w.finished(Outcome::Done(w.posts))
}

// Joins the inner nodes where an ect_bar is past lct, and answers whether it is.
fn join_where_past(nodes: &mut [u32; TREEWORDS], inner: usize, ect_bar: u32, lct: u32) -> bool
    requires { HeldLeaves inner nodes.old }
    ensures { JoinedPast inner nodes.old nodes.new ect_bar lct result }
{
    let past = ect_bar > lct;
    if past {
        ThetaLambdaTree::rebuild(nodes, inner);
    }
    past
}

// Puts every task into Theta, and answers the ect of all: one after the other, as the leaves stand in the order of earliest starts. The source adds the tasks
// one by one; here the inner nodes are left until a level needs the root.
fn fill(nodes: &mut [u32; TREEWORDS], tasks: &TaskArrays) -> u32
    requires { Fillable tasks.now nodes.old }
    ensures { Filled tasks.now nodes.old nodes.new result }
{
    let mut ect: u32 = 0;
    for x in 0..tasks.size.leaves {
        let place = LeafPlace(x);
        let task = tasks.task(task_of(tasks.reverse_mapping, place));
        ThetaLambdaTree::lay_in_theta(nodes, tasks.size.inner, place, task);
        ect = ect.max(task.start_time) + task.processing_time;
    }
    ect
}

// The ect_bar of the tree as a moment: 0 where no task is in Theta or Lambda.
fn ect_bar_moment(nodes: &[u32; TREEWORDS]) -> u32
    ensures { Answers (λ J est_order ls. raised_to 0 (ect_bar_of J est_order ls)) nodes.now result }
{
    ThetaLambdaTree::ect_bar(nodes).unwrap_or(0)
}

// Whether Theta overloads: its ect is past the level's lct. An ect is at most the ect_bar, so the root is read only where the last known ect_bar is past lct.
fn overloads(nodes: &[u32; TREEWORDS], last_ect_bar: u32, lct: u32) -> bool
    ensures { (inner : ℕ) (h : HeldPast inner nodes.now last_ect_bar lct)
        → result ≡ exceeds (ect h.J h.est_order h.leaves) lct }
{
    last_ect_bar > lct && exceeds(ThetaLambdaTree::ect(nodes), lct)
}

// Whether a turn of the next level is known without a search: where the level's task j reaches the last known ect_bar alone. Once j is gray the search
// would find it, and no set of white tasks completes after j starts, so j leaves Lambda with no post.
fn is_turn_known(tasks: &TaskArrays, j: usize, last_ect_bar: u32, needed: bool) -> bool
    requires { (j < TASKS) × (get_or tasks.now.est.now j 0 + get_or tasks.now.durations.now j 0 < 2 ^ 32) }
    ensures { result ≡ turn_known tasks.now j last_ect_bar needed }
{
    needed && tasks.est[j] + tasks.durations[j] == last_ect_bar
}

// Task j leaves Theta: for Lambda, or for neither where its turn is known. The source empties its leaf first; the new leaf goes over the white one here, which
// leaves the same tree. The inner nodes are joined only where they are to be: the leaf's ancestors, or all of them where they were not joined before.
fn leave_theta(
    nodes: &mut [u32; TREEWORDS],
    tasks: &TaskArrays,
    j: usize,
    joined: bool,
    joins: bool,
    taken: bool,
)
    requires { Movable tasks.now nodes.old j joined }
    ensures { Recoloured (left_for taken) tasks.now nodes.old nodes.new j joined joins }
{
    let inner = tasks.size.inner;
    let place = leaf_of(tasks.mapping, LocalId(j));
    let task = tasks.task(LocalId(j));
    if joined && joins {
        if taken {
            ThetaLambdaTree::remove_from_theta(nodes, inner, place);
        } else {
            ThetaLambdaTree::add_to_lambda(nodes, inner, place, task);
        }
        return;
    }
    if taken {
        ThetaLambdaTree::lay_empty(nodes, inner, place);
    } else {
        ThetaLambdaTree::lay_in_lambda(nodes, inner, place, task);
    }
    if joins {
        ThetaLambdaTree::rebuild(nodes, inner);
    }
}

// The posts and the atoms written so far, and the leaf changes so far as the source makes them: it empties a leaf before it changes its colour.
#[derive(Clone, Copy)]
struct Written {
    posts: usize,
    atoms: usize,
    changes: usize,
}

impl Written {
    // Nothing is written.
    fn new(changes: usize) -> Written
        ensures { result ≡ nothing_written changes }
    {
        Written {
            posts: 0,
            atoms: 0,
            changes,
        }
    }

    // With more leaf changes.
    fn counted(self, more: usize) -> Written
        requires { self.changes + more < 2 ^ 64 }
        ensures { result ≡ counted self more }
    {
        Written {
            changes: self.changes + more,
            ..self
        }
    }

    // How a run ends, with its leaf changes.
    fn finished(self, outcome: Outcome) -> Finished
        ensures { (result.outcome ≡ outcome) × (result.changes ≡ self.changes) }
    {
        Finished {
            outcome,
            changes: self.changes,
        }
    }

    // The end of a run by an overload: its reason stands after the atoms written so far.
    fn overloaded(
        self,
        atoms: &mut [i32],
        nodes: &[u32; TREEWORDS],
        tasks: &TaskArrays,
        lct: u32,
    ) -> Finished
        requires { (h : Held tasks.now.size.inner nodes.now)
            × (ConflictExplainable (length atoms.old) self.atoms (theta_shown tasks.now nodes.now) tasks.now.est.now
            tasks.now.durations.now (sum h.J h.est_order h.leaves) lct) }
        ensures { (h : Held tasks.now.size.inner nodes.now)
            → ConflictExplained atoms.old atoms.new self result (conflict_of tasks.now h lct) }
    {
        let p_theta = ThetaLambdaTree::sum_of_processing_times(nodes);
        let at = self.atoms;
        let end = create_conflict_explanation(atoms, at, tasks.theta(nodes), p_theta, lct);
        self.finished(Outcome::Overload {
            posts: self.posts,
            first: at,
            count: end - at,
        })
    }
}

// A post emptied a range. What was written until then, with that post.
#[derive(Clone, Copy)]
struct Emptied(Written);

// Considers the tasks of Lambda for which the edge-finding condition holds, one after the other. Each turn takes one out; there are at most `turns` of them.
fn consider_all(
    nodes: &mut [u32; TREEWORDS],
    earliest: &mut [i32],
    posts: &mut [i32],
    atoms: &mut [i32],
    written: Written,
    tasks: &TaskArrays,
    lct: u32,
    turns: usize,
) -> Result<Written, Emptied>
    requires { Considerable tasks.now lct nodes.old earliest.old posts.old atoms.old written }
    ensures { (s : Considerable tasks.now lct nodes.old earliest.old posts.old atoms.old written)
        → AllConsidered s turns result nodes.new earliest.new posts.new atoms.new }
{
    let mut w = written;
    for _turn in 0..turns {
        let Some(id) = candidate(nodes, tasks, lct) else {
            return Ok(w);
        };
        w = consider(nodes, earliest, posts, atoms, w, tasks, id, lct)?;
    }
    Ok(w)
}

// The task to consider next: one of Lambda for which the edge-finding condition holds.
fn candidate(nodes: &[u32; TREEWORDS], tasks: &TaskArrays, lct: u32) -> Option<LocalId>
    requires { (h : Held tasks.now.size.inner nodes.now) × Tall h tasks.now.size.height }
    ensures { Proposes tasks.now nodes.now lct result }
{
    if !exceeds(ThetaLambdaTree::ect_bar(nodes), lct) {
        return None;
    }
    ThetaLambdaTree::responsible_ect_bar(
        nodes,
        tasks.reverse_mapping,
        tasks.size.inner,
        tasks.size.height,
    )
}

// Considers task i of Lambda. Its new bound is posted where it is above its earliest start, and i leaves Lambda. A bound that is not raised is the start, so
// that writing it changes nothing.
fn consider(
    nodes: &mut [u32; TREEWORDS],
    earliest: &mut [i32],
    posts: &mut [i32],
    atoms: &mut [i32],
    written: Written,
    tasks: &TaskArrays,
    id: LocalId,
    lct: u32,
) -> Result<Written, Emptied>
    requires { (x : ℕ) × (s : Considerable tasks.now lct nodes.old earliest.old posts.old atoms.old written) × ResponsibleFor s id.0 x }
    ensures { (x : ℕ) (s : Considerable tasks.now lct nodes.old earliest.old posts.old atoms.old written)
        → ResponsibleFor s id.0 x → Considered s result nodes.new earliest.new posts.new atoms.new }
{
    let i = id.0;
    let start = tasks.est[i];
    let new_bound = raised_start(nodes, start);
    let mut w = written;
    if new_bound > start {
        w = post(posts, atoms, written, nodes, tasks, i, new_bound, lct);
    }
    if new_bound > tasks.lst[i] {
        return Err(Emptied(w));
    }
    earliest[i] = start_of(new_bound);
    let place = leaf_of(tasks.mapping, id);
    ThetaLambdaTree::remove_from_lambda(nodes, tasks.size.inner, place);
    Ok(w.counted(1))
}

// A task's earliest start, raised to the ect of Theta where that is later.
fn raised_start(nodes: &[u32; TREEWORDS], start: u32) -> u32
    ensures { Answers (λ J est_order ls. raised_to start (ect J est_order ls)) nodes.now result }
{
    raised(ThetaLambdaTree::ect(nodes), start)
}

// Posts that task i starts at the new bound or later, with its reason.
fn post(
    posts: &mut [i32],
    atoms: &mut [i32],
    written: Written,
    nodes: &[u32; TREEWORDS],
    tasks: &TaskArrays,
    i: usize,
    new_bound: u32,
    lct: u32,
) -> Written
    requires { (h : Held tasks.now.size.inner nodes.now)
        × (PropagationExplainable (length atoms.old) written.atoms (theta_shown tasks.now nodes.now) tasks.now.est.now
        tasks.now.durations.now (sum h.J h.est_order h.leaves) lct i new_bound)
        × (4 * written.posts + 4 ≤ length posts.old) × (written.atoms ≤ ATOMS) }
    ensures { (h : Held tasks.now.size.inner nodes.now)
        → Posted posts.old atoms.old posts.new atoms.new written result i new_bound
        (reason_of tasks.now h i new_bound lct) }
{
    let p_theta = ThetaLambdaTree::sum_of_processing_times(nodes);
    let at = written.atoms;
    let end = create_propagation_explanation(
        atoms,
        at,
        tasks.theta(nodes),
        p_theta,
        lct,
        i,
        new_bound,
    );
    write_post(posts, written.posts, i, new_bound, at, end - at);
    Written {
        posts: written.posts + 1,
        atoms: end,
        ..written
    }
}
