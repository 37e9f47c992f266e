// An outcome as the one number that a call returns: the refusal's number in the high 32 bits, its place in the low ones.
#![tactic(auto)]

ghost use Rattle.std.specs.Prelude.{◌≡◌, ◌<◌};
ghost use Rattle.refusal.specs.Outcome.{refused, reported};
ghost use Rattle.refusal.specs.Numbers.{number_of, place_of};
ghost use Rattle.reply.specs.Reply.{half, packed, InHalf};

use refusal::Refusal;

// The size of either half of 64 bits.
pub const HALF: u64 = 4_294_967_296;

// The number that stands for a refusal.
pub fn refused(x: Refusal) -> u64
    requires { place_of x < half }
    ensures { result ≡ packed (refused (number_of x) (place_of x)) }
{
    let number = x.number();
    let place = x.place();
    (number as u64) * HALF + (place as u64)
}

// The number that stands for the bytes written, or for the refusal.
pub fn written(w: Result<usize, Refusal>) -> u64
    requires { InHalf (reported w) }
    ensures { result ≡ packed (reported w) }
{
    match w {
        Ok(n) => n as u64,
        Err(x) => refused(x),
    }
}
