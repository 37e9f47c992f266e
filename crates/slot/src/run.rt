// One run: how far it is, and its bytes.
ghost use Rattle.std.specs.Prelude.{◌≡◌, ◌++◌, ◌+◌, ◌*◌, ◌≤◌, ◌<◌, length, take, drop};
ghost use Rattle.number.specs.Axis.{axis};
ghost use Rattle.runs.specs.Runs.{number_bytes};
ghost use Rattle.slot.specs.inner.Gap.{gap_to, nearer_of};

// From v to the run that begins at low and stops before end.
pub fn gap(low: u32, end: u32, v: u32) -> u32
    requires { (low < end) × (v < axis) }
    ensures { result ≡ gap_to low end v }
{
    if v < low {
        return low - v;
    }
    if v < end {
        return 0;
    }
    v + 1 - end
}

// The lesser of two distances, where there is one already.
pub fn nearer(nearest: Option<u32>, g: u32) -> u32
    ensures { result ≡ nearer_of nearest g }
{
    match nearest {
        Some(d) => d.min(g),
        None => g,
    }
}

// Writes low and high of a run, as run number `at`.
pub fn put_bytes(out: &mut [u8], at: usize, low: u32, high: u32)
    requires { (8 * at + 8 ≤ length out.old) × (low < axis) × (high < axis) }
    ensures { out.new ≡ take (8 * at) out.old ++ (number_bytes low ++ number_bytes high) ++ drop (8 * at + 8) out.old }
{
    number::put_word(out, 8 * at, number::bits_at(low));
    number::put_word(out, 8 * at + 4, number::bits_at(high));
}
