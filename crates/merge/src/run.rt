// What two sets share: of one run each without a walk.
ghost use Rattle.std.specs.Prelude.{◌≡◌, false, ◌&&◌, ◌≤◌, length};
ghost use Rattle.runs.specs.Set.{shared_words, Canonical};
ghost use Rattle.merge.specs.inner.Merge.{merge_cuts, Merged};
ghost use Rattle.merge.specs.inner.OneRun.{run_cuts, OneRun};

// The numbers from low on and before end; none where low is not below end.
#[derive(Drop)]
struct Run {
    low: u32,
    end: u32,
}

// What two sets share, where each has one run.
fn of_two(a: &[u32], b: &[u32]) -> Option<Run>
    requires { Canonical a.now × Canonical b.now }
    ensures { OneRun ◌&&◌ a.now b.now result }
{
    if a.len() != 2 || b.len() != 2 {
        return None;
    }
    Some(Run {
        low: a[0].max(b[0]),
        end: a[1].min(b[1]),
    })
}

// Writes the cuts of one run, or none, and says how many.
fn put(run: Run, out: &mut [u32]) -> usize
    requires { 2 ≤ length out.old }
    ensures { Merged (run_cuts run.low run.end) out.old out.new (Some result) }
{
    if run.end <= run.low {
        return 0;
    }
    out[0] = run.low;
    out[1] = run.end;
    2
}

// Writes the cuts of what two sets share: one run at once, others by the walk. Says how many, or nothing where there is no room for all.
pub fn merge(a: &[u32], b: &[u32], out: &mut [u32]) -> Option<usize>
    requires { Canonical a.now × Canonical b.now × (length a.now ≤ shared_words) × (length b.now ≤ shared_words) × (2 ≤ length out.old) }
    ensures { Merged (merge_cuts ◌&&◌ false false a.now b.now) out.old out.new result }
{
    match of_two(a, b) {
        Some(run) => Some(put(run, out)),
        None => crate::walk::merge(a, b, out),
    }
}
