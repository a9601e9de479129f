// The lines of the instance: a count, and a line for each task.
ghost use Rattle.std.specs.Prelude.{◌+◌, ◌*◌, ◌≤◌, length};
ghost use Rattle.integers.specs.Limits.{TASKS};
ghost use Rattle.text.specs.DecimalText.{Puts};
ghost use Rattle.plan_cli.specs.Lines.{lines};
ghost use Rattle.costliest_cli.specs.Tasks.{task_line, instance_lines, costliest_task, costliest};

use text::writing::{put_bytes, put_count};

// The line of task k: both its starts are 10k, and it lasts 10.
fn put_task(out: &mut [u8], at: usize, k: usize) -> usize
    requires { (k ≤ TASKS) × (at + 63 ≤ length out.old) }
    ensures text { Puts out.old out.new at (task_line (costliest_task k)) result }
    ensures within { result ≤ at + 63 }
{
    let a = put_count(out, at, 10 * k);
    let b = put_bytes(out, a, b" ");
    let c = put_count(out, b, 10 * k);
    let d = put_bytes(out, c, b" ");
    let e = put_count(out, d, 10);
    put_bytes(out, e, b"\n")
}

// The lines of n tasks.
fn put_tasks(out: &mut [u8], at: usize, n: usize) -> usize
    requires { (n ≤ TASKS) × (at + 63 * n ≤ length out.old) }
    ensures text { Puts out.old out.new at (lines task_line (costliest n)) result }
    ensures within { result ≤ at + 63 * n }
{
    let mut end = at;
    for k in 0..n {
        end = put_task(out, end, k);
    }
    end
}

// The instance of n tasks.
pub fn put_instance(out: &mut [u8], n: usize) -> usize
    requires { (n ≤ TASKS) × (21 + 63 * n ≤ length out.old) }
    ensures text { Puts out.old out.new 0 (instance_lines (costliest n)) result }
    ensures within { result ≤ 21 + 63 * n }
{
    let a = put_count(out, 0, n);
    let b = put_bytes(out, a, b"\n");
    put_tasks(out, b, n)
}
