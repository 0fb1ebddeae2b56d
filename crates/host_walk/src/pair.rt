//! A real station and one in memory, and calls that both answer alike.
ghost use Rattle.std.specs.Prelude.{◌≤◌, ◌<◌, length};

use host_station::HostStation;
use shelf_memory::Bench;
use shelf_model::{FileNo, PIECE, Shelf, Station};

/// A real station.
pub(crate) type Real<'r> = HostStation<&'r HostRuntime>;

/// Enters the real folder at a path, and the one in memory.
pub(crate) fn enter(path: &str, real: &mut Real<'_>, bench: &mut Bench) -> bool {
    real.enter(path) == bench.enter("FOLDER")
}

pub(crate) fn len(f: FileNo, real: &mut Real<'_>, bench: &mut Bench) -> bool {
    real.len(f) == bench.len(f)
}

/// Reads from a byte on, and compares the whole buffers: behind what was read they stay.
pub(crate) fn read_at(
    f: FileNo,
    at: u64,
    size: usize,
    real: &mut Real<'_>,
    bench: &mut Bench,
) -> bool {
    let size = size.clamp(1, PIECE);
    let mut one = [7u8; PIECE];
    let mut other = [7u8; PIECE];
    let count = real.read_at(f, at, &mut one[..size]);
    count == bench.read_at(f, at, &mut other[..size]) && one.as_slice() == other.as_slice()
}

pub(crate) fn append(f: FileNo, bytes: &[u8], real: &mut Real<'_>, bench: &mut Bench) -> bool
    requires { (0 < length bytes.now) × (length bytes.now ≤ 2048) }
{
    let at = bench.file(f).len() as u64;
    real.append(f, at, bytes) == bench.append(f, at, bytes)
}

pub(crate) fn cut(f: FileNo, to: u64, real: &mut Real<'_>, bench: &mut Bench) -> bool {
    real.cut(f, to) == bench.cut(f, to)
}

pub(crate) fn sync(f: FileNo, real: &mut Real<'_>, bench: &mut Bench) -> bool {
    real.sync(f) == bench.sync(f)
}

/// Fetches the text at a path from a byte on, and compares the whole buffers.
pub(crate) fn fetch(
    path: &str,
    at: u64,
    size: usize,
    real: &mut Real<'_>,
    bench: &mut Bench,
) -> bool {
    let size = size.clamp(1, PIECE);
    let mut one = [7u8; PIECE];
    let mut other = [7u8; PIECE];
    let count = real.fetch(path, at, &mut one[..size]);
    count == bench.fetch(path, at, &mut other[..size]) && one.as_slice() == other.as_slice()
}

pub(crate) fn say(bytes: &[u8], real: &mut Real<'_>, bench: &mut Bench) -> bool
    requires { (0 < length bytes.now) × (length bytes.now ≤ 2048) }
{
    real.say(bytes) == bench.say(bytes)
}

/// Reads a whole file in pieces.
pub(crate) fn whole(f: FileNo, real: &mut Real<'_>, bench: &mut Bench) -> bool {
    if !len(f, real, bench) {
        return false;
    }
    let pieces = bench.file(f).len() / PIECE;
    for k in 0..pieces + 1 {
        if !read_at(
            f,
            (k as u64).saturating_mul(PIECE as u64),
            PIECE,
            real,
            bench,
        ) {
            return false;
        }
    }
    true
}
