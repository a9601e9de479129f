// The lines of a run, put into a buffer one after the other.
ghost use Rattle.std.specs.Prelude.{◌+◌, ◌*◌, ◌≤◌, ◌≡◌, List, length};
ghost use Rattle.scheduling.specs.Scheduling.{Atom};
ghost use Rattle.scheduling.specs.Words.{atom_words};
ghost use Rattle.text.specs.DecimalText.{Puts};
ghost use Rattle.plan_cli.specs.Lines.{sign, post_line, why_line, why_lines, spaced_one, spaced, refused_line};

use post_words::{atoms_in, kind_at, value_at, variable_at};
use text::writing::{put_bytes, put_count, put_number};

// The sign of an atom's kind.
fn put_sign(out: &mut [u8], at: usize, kind: i32) -> usize
    requires { at + 4 ≤ length out.old }
    ensures text { Puts out.old out.new at (sign kind) result }
    ensures within { result ≡ at + 4 }
{
    if kind <= 0 {
        return put_bytes(out, at, b" >= ");
    }
    put_bytes(out, at, b" <= ")
}

// The line of an atom.
fn put_why(out: &mut [u8], at: usize, variable: i32, kind: i32, value: i32) -> usize
    requires { at + 33 ≤ length out.old }
    ensures text { Puts out.old out.new at (why_line variable kind value) result }
    ensures within { result ≤ at + 33 }
{
    let a = put_bytes(out, at, b"why ");
    let b = put_number(out, a, variable);
    let c = put_sign(out, b, kind);
    let d = put_number(out, c, value);
    put_bytes(out, d, b"\n")
}

// The line of a post.
pub fn put_post(out: &mut [u8], at: usize, task: i32, bound: i32) -> usize
    requires { at + 44 ≤ length out.old }
    ensures text { Puts out.old out.new at (post_line task bound) result }
    ensures within { result ≤ at + 44 }
{
    let a = put_bytes(out, at, b"post ");
    let b = put_number(out, a, task);
    let c = put_bytes(out, b, b" ");
    let d = put_number(out, c, bound);
    put_bytes(out, d, b"\n")
}

// The line of a refusal.
pub fn put_refused(out: &mut [u8], at: usize, number: u32) -> usize
    requires { at + 29 ≤ length out.old }
    ensures text { Puts out.old out.new at (refused_line number) result }
    ensures within { result ≤ at + 29 }
{
    let a = put_bytes(out, at, b"refused ");
    let b = put_count(out, a, number as usize);
    put_bytes(out, b, b"\n")
}

// The lines of a reason, with at most 11 bytes for each of its words.
pub fn put_reason(out: &mut [u8], at: usize, words: &[i32]) -> usize
    requires { at + 11 * length words.now ≤ length out.old }
    ensures text { (atoms : List Atom) → words.now ≡ atom_words atoms
        → Puts out.old out.new at (why_lines atoms) result }
    ensures within { result ≤ at + 11 * length words.now }
{
    let n = atoms_in(words);
    let mut end = at;
    for k in 0..n {
        end = put_why(
            out,
            end,
            words[variable_at(k)],
            words[kind_at(k)],
            words[value_at(k)],
        );
    }
    end
}

// A space and a number.
fn put_spaced(out: &mut [u8], at: usize, x: i32) -> usize
    requires { at + 12 ≤ length out.old }
    ensures text { Puts out.old out.new at (spaced_one x) result }
    ensures within { result ≤ at + 12 }
{
    let a = put_bytes(out, at, b" ");
    put_number(out, a, x)
}

// Numbers, a space before each.
pub fn put_starts(out: &mut [u8], at: usize, starts: &[i32]) -> usize
    requires { at + 12 * length starts.now ≤ length out.old }
    ensures text { Puts out.old out.new at (spaced starts.now) result }
    ensures within { result ≤ at + 12 * length starts.now }
{
    let mut end = at;
    for start in starts {
        end = put_spaced(out, end, *start);
    }
    end
}
