// The size that the input asks for: its one number, from 1 to TASKS.
ghost use Rattle.std.specs.Prelude.{List, ◌≡◌, ◌≤◌, ℤ, IfSome};
ghost use Rattle.std.proofs.Math.Option.{Option};
ghost use Rattle.integers.specs.Limits.{TASKS};
ghost use Rattle.text.specs.Scanner.{gathered};
ghost use Rattle.costliest_cli.specs.Asked.{asked_in};

use integers::limits::TASKS;
use plan_cli::input::first_natural;
use text::reading::Numbers;

// The size that the numbers of the input ask for; none where they ask for none.
pub fn size_asked(numbers: Numbers) -> Option<usize>
    ensures size { (xs : Option (List ℤ)) → numbers ≡ gathered xs → result ≡ asked_in xs }
    ensures fits { IfSome result (λ n. n ≤ TASKS) }
{
    let n = first_natural(numbers)?;
    if numbers.count != 1 || n == 0 {
        return None;
    }
    if n > TASKS {
        return None;
    }
    Some(n)
}
