// Reading a piece of a list of bytes.
ghost use Rattle.std.specs.Prelude.{◌≤◌, length};
ghost use Rattle.shelf_model.specs.Calls.{Copied};

/// Fills the buffer from byte `at` on, and answers how many bytes there were.
pub fn copy_piece(source: &[u8], at: u64, buf: &mut [u8]) -> usize
    ensures copied { Copied source.now at buf.old buf.new result }
    ensures most { result ≤ length buf.old }
{
    if source.len() as u64 <= at {
        return 0;
    }
    let rest = &source[at as usize..];
    let count = rest.len().min(buf.len());
    buf[..count].copy_from_slice(&rest[..count]);
    count
}
