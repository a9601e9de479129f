// Starts in mirrored time, where the caller's moment t is -t, and the words that a run there leaves, mirrored back in their places.
ghost use Rattle.std.specs.Prelude.{◌≡◌, ◌+◌, ◌<◌, pos, ◌-ℤ◌, length, get_or, set, take, ◌≤ℤ◌};
ghost use Rattle.std.specs.Int.{w32};
ghost use Rattle.std.proofs.Common.{SFits};
ghost use Rattle.scheduling.specs.MirroredTime.{start_mirrored};
ghost use Rattle.runs.specs.Words.{reasons, atoms_in};
ghost use Rattle.runs.specs.Mirrored.{starts_mirrored};
ghost use Rattle.runs.specs.Outcomes.{value_of};
ghost use Rattle.mirrored.specs.MirroredSlices.{StartsMirrorable, mirrored_word, WordMirrorable, PostsMirrorable, PostsMirrored, AtomsMirrorable};
ghost use Rattle.mirrored.specs.MirroredSlices.{AtomsMirrored, ReasonsCountable, AtomsCountable, WordsMirrorable, WordsMirrored};

use integers::limits::TASKS;
use integers::numbers::nat_of;
use post_words::{bound_at, kind_at, read_post, task_at, value_at, variable_at};
use runs::outcome::Outcome;

// A start of a task that lasts p, in mirrored time; and back.
fn mirror_start(x: i32, p: u32) -> i32
    requires { SFits w32 (start_mirrored p x) }
    ensures { result ≡ start_mirrored p x }
{
    -(i64::from(x) + i64::from(p)) as i32
}

// Each start, mirrored, in its place of `out`.
pub fn mirror_starts(out: &mut [i32], starts: &[i32], durations: &[u32; TASKS])
    requires { StartsMirrorable out.old starts.now durations.now }
    ensures { out.new ≡ starts_mirrored (take (length starts.now) durations.now) starts.now }
{
    for (k, x) in starts.iter().enumerate() {
        out[k] = mirror_start(*x, durations[k]);
    }
}

// The word at `at` is a start of the task that the word at `of` names: it is mirrored in its place.
fn mirror_word(words: &mut [i32], of: usize, at: usize, durations: &[u32; TASKS])
    requires { WordMirrorable words.old of at durations.now }
    ensures { words.new ≡ set words.old at (mirrored_word words.old of at durations.now) }
{
    let task = nat_of(words[of]) as usize;
    words[at] = mirror_start(words[at], durations[task]);
}

// The word at `at` is a kind: at least becomes at most, and at most at least.
fn mirror_kind(words: &mut [i32], at: usize)
    requires { (at < length words.old) × (pos 0 ≤ℤ get_or words.old at (pos 0)) × (get_or words.old at (pos 0) ≤ℤ pos 1) }
    ensures { words.new ≡ set words.old at (pos 1 -ℤ get_or words.old at (pos 0)) }
{
    words[at] = 1 - words[at];
}

// Of each post the bound is mirrored.
fn mirror_posts(posts: &mut [i32], count: usize, durations: &[u32; TASKS])
    requires { PostsMirrorable posts.old count durations.now }
    ensures { PostsMirrored posts.old count durations.now posts.new }
{
    for j in 0..count {
        mirror_word(posts, task_at(j), bound_at(j), durations);
    }
}

// Of each atom the kind and the value are mirrored. What this shares with posts is `mirror_word`; one loop for both would take the places as closures, and a
// kind that posts lack, and be no plainer.
fn mirror_atoms(atoms: &mut [i32], count: usize, durations: &[u32; TASKS])
    requires { AtomsMirrorable atoms.old count durations.now }
    ensures { AtomsMirrored atoms.old count durations.now atoms.new }
{
    for k in 0..count {
        mirror_kind(atoms, kind_at(k));
        mirror_word(atoms, variable_at(k), value_at(k), durations);
    }
}

// How many atoms the reasons of `count` posts have: the last post's reason ends with the last.
fn atoms_of_posts(posts: &[i32], count: usize) -> usize
    requires { ReasonsCountable posts.now count }
    ensures { (c : ReasonsCountable posts.now count) → result ≡ length (reasons c.posts) }
{
    if count == 0 {
        return 0;
    }
    let last = read_post(posts, count - 1);
    nat_of(last.first) as usize + nat_of(last.count) as usize
}

// How many posts a run with this outcome made.
fn posts_of(outcome: Outcome) -> usize
    ensures { result ≡ value_of outcome 0 }
{
    match outcome {
        Outcome::Done(posts) | Outcome::Overload { posts, .. } | Outcome::Emptied(posts) => posts,
        Outcome::Refused(_) => 0,
    }
}

// How many atoms a run wrote: those of its posts, and an overload's after them.
fn atoms_of(outcome: Outcome, posts: &[i32]) -> usize
    requires { AtomsCountable outcome posts.now }
    ensures { (a : AtomsCountable outcome posts.now) → result ≡ length (atoms_in a.trace) }
{
    match outcome {
        Outcome::Overload { first, count, .. } => first + count,
        _ => atoms_of_posts(posts, posts_of(outcome)),
    }
}

// The words that a run in mirrored time wrote, mirrored back into the caller's time.
pub fn mirror_words(
    outcome: Outcome,
    posts: &mut [i32],
    atoms: &mut [i32],
    durations: &[u32; TASKS],
)
    requires { WordsMirrorable outcome posts.old atoms.old durations.now }
    ensures { (e : WordsMirrorable outcome posts.old atoms.old durations.now)
        → WordsMirrored e posts.new atoms.new }
{
    let count = posts_of(outcome);
    let many = atoms_of(outcome, posts);
    mirror_posts(posts, count, durations);
    mirror_atoms(atoms, many, durations);
}
