// The two sentences of a conflict's page. They too are put at a place of the caller's buffer, and the place after them is answered.
ghost use Rattle.std.specs.Prelude.{◌+◌, ◌≤◌, length};
ghost use Rattle.text.specs.DecimalText.{decimal, Puts};
ghost use Rattle.conflict_pages.specs.Sentences.{phrase, overload_sentences, sum_sentence};
ghost use Rattle.conflict_pages.specs.Sayable.{OverloadSayable, SumSayable};

use integers::numbers::word_of;
use pages::lines::end_of;
use text::writing::{put_bytes, put_number};

// A number, and words after it.
fn put_phrase(out: &mut [u8], at: usize, x: i32, words: &[u8]) -> usize
    requires { (at + 11 + length words.now ≤ length out.old) × (length (decimal x) ≤ 10) }
    ensures text { Puts out.old out.new at (phrase x words.now) result }
    ensures within { result ≤ at + 10 + length words.now }
{
    let a = put_number(out, at, x);
    put_bytes(out, a, words)
}

// The sentences of an overload. The span is as long as the work less the excess.
pub(crate) fn put_overload(
    out: &mut [u8],
    at: usize,
    est: i32,
    p: u32,
    lct: i32,
    excess: u32,
) -> usize
    requires { OverloadSayable est p lct excess × (at + 94 ≤ length out.old) }
    ensures text { Puts out.old out.new at (overload_sentences est p lct excess) result }
    ensures within { result ≤ at + 93 }
{
    let a = put_phrase(out, at, word_of((p - excess) as usize), b" units from ");
    let b = put_phrase(out, a, est, b" to ");
    let c = put_phrase(out, b, lct, b", and they take ");
    let d = put_phrase(out, c, word_of(p as usize), b"\n");
    put_phrase(out, d, word_of(excess as usize), b" too many\n")
}

// What a task does, and the sum that shows it: est + p of a set is past another moment.
pub(crate) fn put_sum(
    out: &mut [u8],
    at: usize,
    task: usize,
    does: &[u8],
    est: i32,
    p: u32,
    past: i32,
) -> usize
    requires { SumSayable task est p past × (at + 59 + length does.now ≤ length out.old) }
    ensures text { Puts out.old out.new at (sum_sentence task does.now est p past) result }
    ensures within { result ≤ at + 58 + length does.now }
{
    let sum = end_of(est, p);
    let a = put_number(out, at, word_of(task));
    let b = put_bytes(out, a, does);
    let c = put_phrase(out, b, est, b" + ");
    let d = put_phrase(out, c, word_of(p as usize), b" = ");
    let e = put_phrase(out, d, sum, b" is past ");
    put_phrase(out, e, past, b"\n")
}
