// One walk along the runs of two sets.
ghost use Rattle.std.specs.Prelude.{◌≡◌, false, ◌&&◌, ◌≤◌, length};
ghost use Rattle.runs.specs.Set.{shared_words, Canonical};
ghost use Rattle.merge.specs.inner.Merge.{merge_cuts, Merged};

// Writes the cuts of what two sets share: of the runs at i and j what both hold, then on behind the one that ends first.
// Says how many cuts it wrote, or nothing where there was no room for all.
pub fn merge(a: &[u32], b: &[u32], out: &mut [u32]) -> Option<usize>
    requires { Canonical a.now × Canonical b.now × (length a.now ≤ shared_words) × (length b.now ≤ shared_words) }
    ensures { Merged (merge_cuts ◌&&◌ false false a.now b.now) out.old out.new result }
{
    let room = out.len();
    let mut n: usize = 0;
    let mut i: usize = 0;
    let mut j: usize = 0;
    // Two places that move apart.
    while i < a.len() {
        if j == b.len() {
            return Some(n);
        }
        let la = a[i];
        let ea = a[i + 1];
        let lb = b[j];
        let eb = b[j + 1];
        if ea <= lb {
            i += 2;
        } else if eb <= la {
            j += 2;
        } else {
            if room < n + 2 {
                return None;
            }
            out[n] = la.max(lb);
            out[n + 1] = ea.min(eb);
            n += 2;
            if ea < eb {
                i += 2;
            } else {
                j += 2;
            }
        }
    }
    Some(n)
}
