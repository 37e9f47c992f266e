// Numbers in decimal, put into the output.
ghost use Rattle.std.specs.Prelude.{◌+◌, ◌≤◌, ◌<◌, length};
ghost use Rattle.number.specs.Words.{signed};
ghost use Rattle.page.specs.Decimal.{in_decimal, signed_decimal};
ghost use Rattle.page.specs.inner.Puts.{Puts};

use crate::put;

// Where 0 stands among the signed numbers of 32 bits, counted from the least.
const ZERO: u32 = 2_147_483_648;

// Puts a number.
pub fn unsigned(out: &mut [u8], at: usize, n: u64) -> usize
    requires { at + length (in_decimal n) ≤ length out.old }
    ensures { Puts (in_decimal n) out.old at out.new result }
{
    let mut digits = [0u8; 20];
    let k = io::decimal(n, &mut digits);
    put::bytes(out, at, &digits[..k])
}

// Puts the signed number with these 32 bits.
pub fn signed(out: &mut [u8], at: usize, bits: u32) -> usize
    requires { at + length (signed_decimal (signed bits)) ≤ length out.old }
    ensures { Puts (signed_decimal (signed bits)) out.old at out.new result }
{
    let place = number::offset_binary(bits);
    if place < ZERO {
        let digits = put::byte(out, at, b'-');
        return unsigned(out, digits, (ZERO - place) as u64);
    }
    unsigned(out, at, (place - ZERO) as u64)
}
