// The lines of posts and of their reasons.
use crate::lines::{say_numbers, say_refused};
use post_words::{
    atoms_in, kind_at, post_number, post_reason, posts_in, read_post, stretch, value_at,
    variable_at,
};
use std::io;
use std::io::Write;

// All posts.
pub fn say_posts<W: Write>(
    output: &mut W,
    posts: &[i32],
    atoms: &[i32],
    count: usize,
) -> io::Result<()> {
    for j in 0..count {
        say_post(output, posts, atoms, count, j)?;
    }
    Ok(())
}

// Post j with its reason, as the post reader hands them out.
fn say_post<W: Write>(
    output: &mut W,
    posts: &[i32],
    atoms: &[i32],
    count: usize,
    j: usize,
) -> io::Result<()> {
    let number = post_number(posts, atoms, count, j);
    if number != 0 {
        return say_refused(output, number);
    }
    if j < posts_in(posts) {
        let post = read_post(posts, j);
        write!(output, "post")?;
        say_numbers(output, &[post.task, post.bound, post.first, post.count])?;
    }
    say_reason(output, post_reason(posts, atoms, count, j))
}

// The lines of a reason.
fn say_reason<W: Write>(output: &mut W, words: &[i32]) -> io::Result<()> {
    for k in 0..atoms_in(words) {
        say_why(
            output,
            words[variable_at(k)],
            words[kind_at(k)],
            words[value_at(k)],
        )?;
    }
    Ok(())
}

// The line of an atom; reasons have no other kinds than these two.
fn say_why<W: Write>(output: &mut W, variable: i32, kind: i32, value: i32) -> io::Result<()> {
    let sign = if kind == 0 { ">=" } else { "<=" };
    writeln!(output, "why {variable} {sign} {value}")
}

// The end of a run that found an overload, with its reason.
pub fn say_overload<W: Write>(
    output: &mut W,
    atoms: &[i32],
    first: usize,
    count: usize,
) -> io::Result<()> {
    writeln!(output, "overload {first} {count}")?;
    say_atoms(output, atoms, first, count)
}

// The lines of `count` atoms from the one numbered `first` on, or none where they are not in the slice.
pub fn say_atoms<W: Write>(
    output: &mut W,
    atoms: &[i32],
    first: usize,
    count: usize,
) -> io::Result<()> {
    let all = atoms_in(atoms);
    if first > all || count > all - first {
        return Ok(());
    }
    say_reason(output, stretch(atoms, first, count))
}
