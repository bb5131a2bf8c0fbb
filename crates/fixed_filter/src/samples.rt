//! The past samples of a channel.

ghost use Rattle.std.specs.Prelude.{◌≡◌, ◌-◌, ◌<◌, ◌∷◌, length, take};

/// Puts a sample in front of the past samples, the newest first, and drops the oldest one. Precondition: there is a
/// past sample.
pub fn put_in_front<T: Copy>(sample: T, past: &mut [T])
    requires { 0 < length past.old }
    ensures { past.new ≡ sample ∷ take (length past.old - 1) past.old }
{
    past.copy_within(0..past.len() - 1, 1);
    past[0] = sample;
}
