//! Bytes that are put into a buffer from a place on.

ghost use Rattle.std.specs.Prelude.{◌≡◌, ◌+◌, ◌≤◌, length};
ghost use Rattle.psi_log_format.specs.Room.{Puts};

/// Puts bytes from a place of the buffer on, and returns the place after them.
#[inline]
pub(crate) fn put(out: &mut [u8], at: usize, text: &[u8]) -> usize
    requires { at + length text.now ≤ length out.old }
    ensures { Puts out.old out.new at result text.now }
{
    let end = at + text.len();
    out[at..end].copy_from_slice(text);
    end
}
