// Numbers of the axis, and numbers of 32 bits in bytes.
#![tactic(auto)]

ghost use Rattle.std.specs.Prelude.{◌≡◌, ◌+◌, ◌<◌, ◌≤◌, min, max, ◌++◌, length, take, drop};
ghost use Rattle.number.specs.Axis.{axis, whole};
ghost use Rattle.number.specs.Words.{word, word_bytes, offset_binary, bits};

// The index of the whole number 0 on the axis.
pub const ORIGIN: u32 = 2_000_000_000;

// How many numbers the axis has.
pub const AXIS: u32 = 4_000_000_001;

// The lesser of two.
pub fn lesser(m: u32, n: u32) -> u32
    ensures { result ≡ min m n }
{
    m.min(n)
}

// The greater of two.
pub fn greater(m: u32, n: u32) -> u32
    ensures { result ≡ max m n }
{
    m.max(n)
}

// The four bytes from `at` on, as a number.
pub fn word_at(s: &[u8], at: usize) -> u32
    requires { at + 4 ≤ length s.now }
    ensures { result ≡ word s.now at }
{
    u32::from_le_bytes([s[at], s[at + 1], s[at + 2], s[at + 3]])
}

// The bits of a signed number in offset binary: their order is that of the signed numbers.
pub fn offset_binary(bits: u32) -> u32
    ensures { result ≡ offset_binary bits }
{
    bits.wrapping_add(2147483648)
}

// The 32 bits of the number at an index of the axis.
pub fn bits_at(index: u32) -> u32
    requires { index < axis }
    ensures { result ≡ bits (whole index) }
{
    index.wrapping_sub(ORIGIN)
}

// Writes a number as four bytes from `at` on.
pub fn put_word(out: &mut [u8], at: usize, w: u32)
    requires { at + 4 ≤ length out.old }
    ensures { out.new ≡ take at out.old ++ word_bytes w ++ drop (at + 4) out.old }
{
    out[at..at + 4].copy_from_slice(&w.to_le_bytes());
}
