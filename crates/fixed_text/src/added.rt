//! Adding bytes at the end of a buffer that has room for them.

ghost use Rattle.std.specs.Prelude.{◌≡◌, ◌+◌, ◌++◌, ◌≤◌, length, vec_len};
ghost use Rattle.std.specs.Vec.{vec_capacity};

/// Adds the bytes at the end. Precondition: the buffer's capacity has room for them.
pub fn push_all(out: &mut Vec<u8>, bytes: &[u8])
    requires { vec_len out.old + length bytes.now ≤ vec_capacity out.old }
    ensures items { out.new.items ≡ out.old.items ++ bytes.now }
    ensures len { vec_len out.new ≡ vec_len out.old + length bytes.now }
    ensures capacity { vec_capacity out.old ≤ vec_capacity out.new }
{
    let _done = out.extend_from_slice(bytes);
}
