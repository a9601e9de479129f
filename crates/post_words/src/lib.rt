// Posts and atoms as words: the place of each word, what writes them, and the post reader. It answers 0 or 11, and the stretch of atoms of a post.
#![tactic(auto)]

ghost use Rattle.std.specs.Prelude.{◌≡◌, [], ◌∷◌, ◌+◌, ◌*◌, ◌/◌, ◌^◌, ◌<◌, ◌≤◌, pos, length, take, drop, MatchOption};
ghost use Rattle.std.proofs.lemmas.List.Edits.{sets};
ghost use Rattle.integers.specs.Limits.{TASKS};
ghost use Rattle.integers.specs.Moments.{instant, zero_at};
ghost use Rattle.integers.specs.Refused.{POST};
ghost use Rattle.post_words.specs.Kinds.{kind_of};
ghost use Rattle.post_words.specs.Posts.{task_place, bound_at, variable_place, kind_at, value_at, words_of, word_of_task, bound_of, first_atom_of, count_of_atoms, PostFits};
ghost use Rattle.post_words.specs.Posts.{number_of_post, reason_words};

use integers::moments::start_of;
use integers::numbers::word_of;
use integers::refused::Refusal;

// What an atom of a reason says of its variable: at least, or at most, its value.
#[derive(Clone, Copy, Debug, PartialEq, Eq)]
pub enum AtomKind {
    AtLeast,
    AtMost,
}

impl AtomKind {
    // The kind as an atom's word.
    pub fn word(self) -> i32
        ensures { result ≡ pos (kind_of self) }
    {
        match self {
            AtomKind::AtLeast => 0,
            AtomKind::AtMost => 1,
        }
    }
}

// The place of post j's first word, its task, and the place of its bound. As with an atom's places below, one function for all would take a name of the
// word beside j, and be no plainer where it is called.
pub fn task_at(j: usize) -> usize
    requires { 4 * j + 4 < 2 ^ 64 }
    ensures { result ≡ task_place j }
{
    4 * j
}

pub fn bound_at(j: usize) -> usize
    requires { 4 * j + 4 < 2 ^ 64 }
    ensures { result ≡ bound_at j }
{
    4 * j + 1
}

// The place of atom k's first word, its variable, and the places of its kind and its value.
pub fn variable_at(k: usize) -> usize
    requires { 3 * k + 3 < 2 ^ 64 }
    ensures { result ≡ variable_place k }
{
    3 * k
}

pub fn kind_at(k: usize) -> usize
    requires { 3 * k + 3 < 2 ^ 64 }
    ensures { result ≡ kind_at k }
{
    3 * k + 1
}

pub fn value_at(k: usize) -> usize
    requires { 3 * k + 3 < 2 ^ 64 }
    ensures { result ≡ value_at k }
{
    3 * k + 2
}

// How many posts, and how many atoms, a slice of words has room for.
pub fn posts_in(posts: &[i32]) -> usize
    ensures { result ≡ length posts.now / 4 }
{
    posts.len() / 4
}

pub fn atoms_in(atoms: &[i32]) -> usize
    ensures { result ≡ length atoms.now / 3 }
{
    atoms.len() / 3
}

// How many words n atoms are.
pub fn words_of(n: usize) -> usize
    requires { words_of n < 2 ^ 64 }
    ensures { result ≡ words_of n }
{
    3 * n
}

// The words of `count` atoms from the one numbered `first` on.
pub fn stretch(atoms: &[i32], first: usize, count: usize) -> &[i32]
    requires { 3 * first + 3 * count ≤ length atoms.now }
    ensures words { result.now ≡ take (3 * count) (drop (3 * first) atoms.now) }
    ensures long { length result.now ≡ 3 * count }
{
    let from = 3 * first;
    let end = from + 3 * count;
    &atoms[from..end]
}

// The j-th post's four words.
pub fn write_post(posts: &mut [i32], j: usize, task: usize, bound: u32, first: usize, count: usize)
    requires { PostFits (length posts.old) j task first count }
    ensures { posts.new ≡ sets posts.old (4 * j) (pos task ∷ instant zero_at bound ∷ pos first ∷ pos count ∷ []) }
{
    let at = 4 * j;
    posts[at] = word_of(task);
    posts[at + 1] = start_of(bound);
    posts[at + 2] = word_of(first);
    posts[at + 3] = word_of(count);
}

// The k-th atom's three words: its variable is a task, its value the whole number at a moment.
pub fn write_atom(atoms: &mut [i32], k: usize, task: usize, kind: i32, value: u32)
    requires { (3 * k + 3 ≤ length atoms.old) × (task < TASKS) }
    ensures { atoms.new ≡ sets atoms.old (3 * k) (pos task ∷ kind ∷ instant zero_at value ∷ []) }
{
    let at = 3 * k;
    atoms[at] = word_of(task);
    atoms[at + 1] = kind;
    atoms[at + 2] = start_of(value);
}

// The same for an atom of a reason, which is of one of two kinds.
pub fn write_reason_atom(atoms: &mut [i32], k: usize, task: usize, kind: AtomKind, value: u32)
    requires { (3 * k + 3 ≤ length atoms.old) × (task < TASKS) }
    ensures { atoms.new ≡ sets atoms.old (3 * k) (pos task ∷ pos (kind_of kind) ∷ instant zero_at value ∷ []) }
{
    write_atom(atoms, k, task, kind.word(), value);
}

// The words of a post: its task, its bound, the number of its first atom, and how many atoms it has.
#[derive(Clone, Copy)]
pub struct Post {
    pub task: i32,
    pub bound: i32,
    pub first: i32,
    pub count: i32,
}

// A post that is inside its slice.
pub fn read_post(posts: &[i32], index: usize) -> Post
    requires { 4 * index + 4 ≤ length posts.now }
    ensures task { result.task ≡ word_of_task posts.now index }
    ensures bound { result.bound ≡ bound_of posts.now index }
    ensures first { result.first ≡ first_atom_of posts.now index }
    ensures count { result.count ≡ count_of_atoms posts.now index }
{
    let at = 4 * index;
    Post {
        task: posts[at],
        bound: posts[at + 1],
        first: posts[at + 2],
        count: posts[at + 3],
    }
}

// The post's part of the atom words, where the post is below the post count, and it and its part are inside their slices.
fn part_of<'a, 'b>(
    posts: &'a [i32],
    atoms: &'b [i32],
    post_count: usize,
    index: usize,
) -> Option<&'b [i32]>
    ensures { MatchOption result (number_of_post posts.now atoms.now post_count index ≡ POST)
        (λ part. (number_of_post posts.now atoms.now post_count index ≡ 0) × (part.now ≡ reason_words posts.now atoms.now post_count index)) }
{
    if index >= post_count || index >= posts.len() / 4 {
        return None;
    }
    let post = read_post(posts, index);
    let first = usize::try_from(post.first).ok()?;
    let count = usize::try_from(post.count).ok()?;
    atoms.get(words_of(first)..words_of(first + count))
}

// 11 where the post is not below the post count, or it or its stretch is not inside its slice; else 0.
pub fn post_number(posts: &[i32], atoms: &[i32], post_count: usize, index: usize) -> u32
    ensures { result ≡ number_of_post posts.now atoms.now post_count index }
{
    match part_of(posts, atoms, post_count, index) {
        Some(_) => 0,
        None => Refusal::Post.number(),
    }
}

// The post's part of the atom words, or none where the number is 11.
#[tactic(auto, using(crate::proofs::PostReader::reason_none))]
pub fn post_reason<'a, 'b>(
    posts: &'a [i32],
    atoms: &'b [i32],
    post_count: usize,
    index: usize,
) -> &'b [i32]
    ensures { result.now ≡ reason_words posts.now atoms.now post_count index }
{
    match part_of(posts, atoms, post_count, index) {
        Some(part) => part,
        None => &atoms[..0],
    }
}
