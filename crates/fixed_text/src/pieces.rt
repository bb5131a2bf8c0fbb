//! Cutting a script after each newline.

ghost use Rattle.std.specs.Prelude.{◌≡◌, ◌∷◌, ◌<◌, ◌≤◌, drop, length, take};
ghost use Rattle.std.specs.Option.{option_copied};
ghost use Rattle.fixed_word.specs.Pieces.{pieces, body};

use crate::tokens::first_place;

/// Returns where the first piece ends. Precondition: the script is not empty.
pub fn piece_end(script: &[u8]) -> usize
    requires { 0 < length script.now }
    ensures some { 0 < result }
    ensures within { result ≤ length script.now }
    ensures cut { pieces script.now ≡ take result script.now ∷ pieces (drop result script.now) }
{
    match first_place(script, b'\n') {
        Some(at) => at + 1,
        None => script.len(),
    }
}

/// Returns the bytes before the newline of a piece, or `None` if the piece does not end in one.
pub fn body_of(piece: &[u8]) -> Option<&[u8]>
    ensures { option_copied result ≡ body piece.now }
{
    match piece {
        [front @ .., b'\n'] => Some(front),
        _ => None,
    }
}
