// The brackets open at a byte.
ghost use Rattle.std.specs.Prelude.{◌≡◌};
ghost use Rattle.grammar.specs.Size.{too_deep};

// The most brackets open at a byte.
pub const MOST_OPEN: usize = 16;

// Whether too many brackets are open at some byte.
pub fn too_deep(text: &[u8]) -> bool
    ensures { result ≡ too_deep text.now }
{
    let mut opened: usize = 0;
    let mut closed: usize = 0;
    for &b in text {
        opened += usize::from(b == b'(');
        closed += usize::from(b == b')');
        if closed + MOST_OPEN < opened {
            return true;
        }
    }
    false
}
