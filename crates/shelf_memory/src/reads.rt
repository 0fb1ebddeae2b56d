// How often each file was read.
ghost use Rattle.std.specs.Prelude.{◌≡◌, ◌≢◌, OnOk, OnErr, true};
ghost use Rattle.shelf_model.specs.declared.file_no.FileNo.{FileNo};
ghost use Rattle.shelf_memory.specs.Reads.{read_count};
ghost use Rattle.shelf_memory.specs.Texts.{raised};

use crate::texts::raise;
use shelf_model::FileNo;
use std::alloc::AllocError;
use std::collections::BTreeMap;

/// The count of a file; one that was never read has none.
pub fn count_of(reads: &BTreeMap<FileNo, u64>, f: FileNo) -> u64
    ensures { result ≡ read_count reads.now f }
{
    match reads.get(&f) {
        Some(count) => *count,
        None => 0,
    }
}

/// Counts one read more of a file. Want of memory leaves each count as it was.
pub fn count_read(reads: &mut BTreeMap<FileNo, u64>, f: FileNo) -> Result<(), AllocError>
    ensures ok { OnOk result (read_count reads.new f ≡ raised true (read_count reads.old f)) }
    ensures err { OnErr result ((q : FileNo) → read_count reads.new q ≡ read_count reads.old q) }
    ensures others { (q : FileNo) → q ≢ f → read_count reads.new q ≡ read_count reads.old q }
{
    let count = raise(true, count_of(reads, f));
    reads.insert(f, count)?;
    Ok(())
}
