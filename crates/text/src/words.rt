// The words of a whole line.
ghost use Rattle.std.specs.Prelude.{◌≡◌, ◌+◌, drop};
ghost use Rattle.text.specs.Words.{white_run, run_length};

use crate::reading::is_space;

// What the bytes of a run are: white space, or those of a word.
#[derive(Clone, Copy, Debug, PartialEq, Eq)]
pub enum Run {
    Space,
    Word,
}

// The first place from `from` on whose byte is not of the run; the end where there is none.
pub fn run_end(line: &[u8], from: usize, run: Run) -> usize
    ensures { result ≡ from + run_length (white_run run) (drop from line.now) }
{
    let white = matches!(run, Run::Space);
    for i in from..line.len() {
        if is_space(line[i]) != white {
            return i;
        }
    }
    from.max(line.len())
}
