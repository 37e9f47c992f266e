// The classes of bytes.
ghost use Rattle.std.specs.Prelude.{◌≡◌};
ghost use Rattle.grammar.specs.Classes.{class_of, is_digit};

use crate::Class;

// The class of a byte.
pub fn class_of(b: u8) -> Class
    ensures { result ≡ class_of b }
{
    match b {
        b'0'..=b'9' => Class::Digit,
        b'A'..=b'Z' | b'a'..=b'z' => Class::Letter,
        b'!' | b'&' | b'('..=b')' | b','..=b'-' | b'<'..=b'>' | b'|' => Class::Sign,
        _ => Class::Foreign,
    }
}

// Whether the byte is a digit.
pub fn is_digit(b: u8) -> bool
    ensures { result ≡ is_digit b }
{
    b.is_ascii_digit()
}
