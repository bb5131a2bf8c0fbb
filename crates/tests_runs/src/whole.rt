//! A caller that knows a polynomial by its contract alone.

ghost use Rattle.std.specs.Prelude.{◌≡◌, ◌<◌, length, map};
ghost use Rattle.fixed_poly.specs.Horner.{horner_reply, reply_map};

use fixed_poly::{PolyReply, horner_of};
use fixed_word::Word;

/// The value of a polynomial on whole numbers, whose products are not rounded.
pub fn whole_value<T: Word>(coefs: &[T], x: T) -> PolyReply<T>
    requires { 0 < length coefs.now }
    ensures { reply_map T.value result
        ≡ horner_reply T.SIGNED T.BITS 0 (T.value x) (map T.value coefs.now) }
{
    horner_of(coefs, x, 0)
}
