//! The names of registers.

ghost use Rattle.std.specs.Prelude.{◌≡◌, IfSome, Some};
ghost use Rattle.fixed_text.specs.Tokens.{next_by, tokens_of, tokens_left};
ghost use Rattle.fixed_script.specs.inside.Parser.{register_at};

use fixed_digits::natural_of;

/// Returns the number of a register, or `None` if the token does not name one.
#[tactic(auto, unfolding(crate::specs::inside::Parser::register_at))]
pub(crate) fn register_of(token: &[u8]) -> Option<u128>
    ensures { result ≡ register_at token.now }
{
    match token {
        [b'r', number @ ..] => natural_of(number),
        _ => None,
    }
}

/// Returns the register of one digit that is the first token, and the bytes after its space. `None` decides nothing:
/// the token may be another register.
#[inline(always)]
pub(crate) fn front_short_register(bytes: &[u8]) -> Option<(u8, Option<&[u8]>)>
    ensures { IfSome result (λ found. next_by register_at (tokens_of bytes.now)
        ≡ Some (found.0, tokens_left found.1)) }
{
    if bytes.len() < 2 || bytes[0] != b'r' || !bytes[1].is_ascii_digit() {
        return None;
    }
    let number = bytes[1] - b'0';
    if bytes.len() == 2 {
        return Some((number, None));
    }
    if bytes[2] == b' ' {
        return Some((number, Some(&bytes[3..])));
    }
    None
}
