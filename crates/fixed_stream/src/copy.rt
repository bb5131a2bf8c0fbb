//! Copying bytes to the front of a buffer.

ghost use Rattle.std.specs.Prelude.{◌≡◌, take, min, length};

/// Copies as many bytes as there are, as fit and as `most` allows, and returns how many.
pub(crate) fn copy_front(bytes: &[u8], most: usize, buf: &mut [u8]) -> usize
    ensures count { result ≡ min most (min (length buf.old) (length bytes.now)) }
    ensures front { take result buf.new ≡ take result bytes.now }
{
    let count = most.min(buf.len().min(bytes.len()));
    buf[..count].copy_from_slice(&bytes[..count]);
    count
}
