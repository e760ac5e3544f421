// A run of bytes put into a buffer.
ghost use Rattle.std.specs.Prelude.{◌≡◌, ◌+◌, ◌≤◌, length};
ghost use Rattle.fj_outside.specs.Bytes.{written};

/// Puts a piece into a buffer at a place, over what stands there.
pub fn put(buffer: &mut [u8], at: usize, piece: &[u8])
    requires { at + length piece.now ≤ length buffer.old }
    ensures { buffer.new ≡ written buffer.old at piece.now }
{
    buffer[at..at + piece.len()].copy_from_slice(piece);
}
