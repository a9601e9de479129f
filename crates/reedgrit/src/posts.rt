// The post reader's answer as numbers.
ghost use Rattle.std.specs.Prelude.{◌≡◌, ◌+◌, ◌*◌, ◌≤◌, pos, length, ◌≤ℤ◌};
ghost use Rattle.post_words.specs.Posts.{first_atom_of, count_of_atoms};
ghost use Rattle.reedgrit.specs.Posts.{post_read_back, post_numbers};

use answers::source_calls::PostAnswer;
use post_words::{post_number, read_post, words_of};

// The words of a post that the reader accepts.
fn accepted_post(posts: &[i32], index: usize) -> PostAnswer
    requires { (4 * index + 4 ≤ length posts.now) × (pos 0 ≤ℤ first_atom_of posts.now index) × (pos 0 ≤ℤ count_of_atoms posts.now index) }
    ensures { result ≡ post_read_back posts.now index }
{
    let post = read_post(posts, index);
    let first = post.first as usize;
    let count = post.count as usize;
    PostAnswer {
        number: 0,
        task: post.task,
        bound: post.bound,
        first: words_of(first),
        count: words_of(count),
    }
}

// Post `index` of a run that made `post_count`, and the stretch of its atoms.
pub fn post(posts: &[i32], atoms: &[i32], post_count: usize, index: usize) -> PostAnswer
    ensures { result ≡ post_numbers posts.now atoms.now post_count index }
{
    let number = post_number(posts, atoms, post_count, index);
    if number != 0 {
        return PostAnswer {
            number,
            task: 0,
            bound: 0,
            first: 0,
            count: 0,
        };
    }
    accepted_post(posts, index)
}
