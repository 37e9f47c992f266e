// Bytes, put behind those that stand in the output already.
ghost use Rattle.std.specs.Prelude.{[], ◌∷◌, ◌+◌, ◌≤◌, ◌<◌, length};
ghost use Rattle.page.specs.inner.Puts.{Puts};

// Puts one byte.
pub fn byte(out: &mut [u8], at: usize, b: u8) -> usize
    requires { at < length out.old }
    ensures { Puts (b ∷ []) out.old at out.new result }
{
    out[at] = b;
    at + 1
}

// Puts all of `bytes`.
pub fn bytes(out: &mut [u8], at: usize, bytes: &[u8]) -> usize
    requires { at + length bytes.now ≤ length out.old }
    ensures { Puts bytes.now out.old at out.new result }
{
    let end = at + bytes.len();
    out[at..end].copy_from_slice(bytes);
    end
}
