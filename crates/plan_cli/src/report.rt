// A run's report: its posts with their reasons, and how it ended.
ghost use Rattle.std.specs.Prelude.{ℕ, ◌+◌, ◌*◌, ◌≤◌, ◌≡◌, List, ◌⊎◌, length, take, drop};
ghost use Rattle.scheduling.specs.Scheduling.{Atom};
ghost use Rattle.scheduling.specs.Words.{atom_words};
ghost use Rattle.runs.specs.Traces.{Post, Trace};
ghost use Rattle.runs.specs.Words.{reasons};
ghost use Rattle.post_words.specs.Posts.{reason_words};
ghost use Rattle.text.specs.DecimalText.{Puts};
ghost use Rattle.plan_cli.specs.Lines.{done_line, overload_lines};
ghost use Rattle.plan_cli.specs.RunLines.{post_of, post_lines, answer_lines};
ghost use Rattle.plan_cli.specs.RunSlices.{PostHeld, PostsHeld, Posts, Shown, Printable};

use crate::lines::{put_post, put_reason, put_refused, put_starts};
use post_words::{post_reason, read_post, stretch};
use runs::outcome::Outcome;
use text::writing::put_bytes;

// Post j of the two slices, with its reason.
fn put_posted(
    out: &mut [u8],
    at: usize,
    posts: &[i32],
    atoms: &[i32],
    count: usize,
    j: usize,
) -> usize
    requires { (4 * j + 4 ≤ length posts.now) × (at + 44 + 11 * length (reason_words posts.now atoms.now count j) ≤ length out.old) }
    ensures text { (p : Post) → PostHeld posts.now atoms.now count j p
        → Puts out.old out.new at (post_of p) result }
    ensures within { result ≤ at + 44 + 11 * length (reason_words posts.now atoms.now count j) }
{
    let post = read_post(posts, j);
    let end = put_post(out, at, post.task, post.bound);
    put_reason(out, end, post_reason(posts, atoms, count, j))
}

// All posts, from the front of the buffer on.
fn put_posts(out: &mut [u8], posts: &[i32], atoms: &[i32], count: usize) -> usize
    requires { Posts posts.now atoms.now count (length out.old) }
    ensures text { (ps : List Post) → PostsHeld ps posts.now atoms.now count
        → Puts out.old out.new 0 (post_lines ps) result }
    ensures within { (ps : List Post) → PostsHeld ps posts.now atoms.now count
        → result ≤ 44 * length ps + 33 * length (reasons ps) }
{
    let mut end = 0;
    for j in 0..count {
        end = put_posted(out, end, posts, atoms, count, j);
    }
    end
}

// The last line of a run that is done.
fn put_done(out: &mut [u8], at: usize, starts: &[i32]) -> usize
    requires { at + 5 + 12 * length starts.now ≤ length out.old }
    ensures text { Puts out.old out.new at (done_line starts.now) result }
    ensures within { result ≤ at + 5 + 12 * length starts.now }
{
    let a = put_bytes(out, at, b"done");
    let b = put_starts(out, a, starts);
    put_bytes(out, b, b"\n")
}

// The last lines of an overload: `count` atoms from the one numbered `first` on.
fn put_overload(out: &mut [u8], at: usize, atoms: &[i32], first: usize, count: usize) -> usize
    requires { (3 * first + 3 * count ≤ length atoms.now) × (at + 33 * count + 9 ≤ length out.old) }
    ensures text { (reason : List Atom) → take (3 * count) (drop (3 * first) atoms.now) ≡ atom_words reason
        → Puts out.old out.new at (overload_lines reason) result }
    ensures within { result ≤ at + 33 * count + 9 }
{
    let end = put_reason(out, at, stretch(atoms, first, count));
    put_bytes(out, end, b"overload\n")
}

// What a run left, or the number that refused it.
pub fn put_run(
    out: &mut [u8],
    outcome: Outcome,
    posts: &[i32],
    atoms: &[i32],
    starts: &[i32],
) -> usize
    requires { Printable outcome posts.now atoms.now starts.now (length out.old) }
    ensures text { (a : ℕ ⊎ Trace) → Shown a outcome posts.now atoms.now starts.now
        → Puts out.old out.new 0 (answer_lines a) result }
    ensures within { result ≤ length out.old }
{
    match outcome {
        Outcome::Done(count) => {
            let end = put_posts(out, posts, atoms, count);
            put_done(out, end, starts)
        }
        Outcome::Overload {
            posts: count,
            first,
            count: many,
        } => {
            let end = put_posts(out, posts, atoms, count);
            put_overload(out, end, atoms, first, many)
        }
        Outcome::Emptied(count) => {
            let end = put_posts(out, posts, atoms, count);
            put_bytes(out, end, b"emptied\n")
        }
        Outcome::Refused(why) => put_refused(out, 0, why.number()),
    }
}
