//! Buffers of the caller.

ghost use Rattle.std.specs.Prelude.{◌≡◌, length};
ghost use Rattle.aggen_c.specs.Answers.{IsCopied};

/// Copies the first of `bytes` to the buffer, as many as it has room for. The rest of the buffer
/// stays as it is. Returns the length of `bytes`.
pub fn copy_prefix(bytes: &[u8], buffer: &mut [u8]) -> usize
    ensures count { result ≡ length bytes.now }
    ensures copied { IsCopied bytes.now buffer.old buffer.new }
{
    let count = bytes.len().min(buffer.len());
    buffer[..count].copy_from_slice(&bytes[..count]);
    bytes.len()
}
