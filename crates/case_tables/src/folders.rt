//! Folders in memory, with the canonical files of tables.
ghost use Rattle.std.specs.Prelude.{◌≤◌};

use canon_file::plain_canon;
use shelf_memory::Bench;
use shelf_model::FileNo;
use std::alloc::Global;
use std::test::Fail;

/// The files of three diagrams, of steps 0, 1 and 2.
pub const FIRST: FileNo = FileNo { step: 0, part: 0 };

pub const SECOND: FileNo = FileNo { step: 1, part: 0 };

pub const THIRD: FileNo = FileNo { step: 2, part: 0 };

/// A folder whose files are the canonical ones of three tables of n variables.
pub fn bench_of(alloc: Global, n: u32, tables: [&[bool]; 3]) -> Result<Bench, Fail>
    requires { n ≤ 20 }
{
    let mut bench = Bench::empty(alloc);
    for (file, table) in [(FIRST, tables[0]), (SECOND, tables[1]), (THIRD, tables[2])] {
        let bytes = canon_of(alloc, n, table)?;
        put_bytes(&mut bench, file, bytes.as_slice())?;
    }
    Ok(bench)
}

/// Puts a file of these bytes, unless they are too many for one.
pub fn put_bytes(bench: &mut Bench, file: FileNo, bytes: &[u8]) -> Result<(), Fail> {
    if bytes.len() <= 1 << 40 {
        bench.put_file(file, bytes)?;
    }
    Ok(())
}

/// The canonical file of a table, or no bytes where it isn't one of n variables.
pub fn canon_of(alloc: Global, n: u32, table: &[bool]) -> Result<Vec<u8>, Fail>
    requires { n ≤ 20 }
{
    if table.len() != 1usize << n {
        return Ok(Vec::new(alloc));
    }
    Ok(plain_canon(alloc, n, table)?)
}
