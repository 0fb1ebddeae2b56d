// The files in memory, by their numbers.
ghost use Rattle.std.specs.Prelude.{◌≡◌, ◌≢◌, OnOk, OnErr, ◌≤◌, length};
ghost use Rattle.shelf_model.specs.declared.file_no.FileNo.{FileNo};
ghost use Rattle.shelf_model.specs.Calls.{longest};
ghost use Rattle.shelf_memory.specs.Changes.{file_of, changed, FitsIn};
ghost use Rattle.shelf_memory.specs.Files.{stored_in};

use crate::change::{Change, Stored};
use shelf_model::FileNo;
use std::alloc::{AllocError, Global};
use std::collections::BTreeMap;

/// What a read of the whole file gives.
pub fn bytes_of(files: &BTreeMap<FileNo, Stored>, f: FileNo) -> &[u8]
    ensures value { result.now ≡ (stored_in files.now f).bytes }
    ensures short { length result.now ≤ longest }
{
    match files.get(&f) {
        Some(stored) => &stored.bytes,
        None => &[],
    }
}

/// Changes one file. Want of memory leaves each file as it was.
pub fn change_file(
    alloc: Global,
    files: &mut BTreeMap<FileNo, Stored>,
    f: FileNo,
    change: &Change,
) -> Result<(), AllocError>
    requires { FitsIn change.now (stored_in files.old f) }
    ensures ok { OnOk result (stored_in files.new f ≡ changed change.now (stored_in files.old f)) }
    ensures err { OnErr result (stored_in files.new f ≡ stored_in files.old f) }
    ensures others { (q : FileNo) → q ≢ f → stored_in files.new q ≡ stored_in files.old q }
{
    if let Some(stored) = files.get_mut(&f) {
        return stored.apply(change);
    }
    let mut stored = Stored::empty(alloc);
    stored.apply(change)?;
    files.insert(f, stored)?;
    Ok(())
}

/// Puts a file in the place of the one of its number. Want of memory leaves each file as it was.
pub fn put_stored(
    files: &mut BTreeMap<FileNo, Stored>,
    f: FileNo,
    stored: Stored,
) -> Result<(), AllocError>
    ensures ok { OnOk result (stored_in files.new f ≡ file_of stored) }
    ensures err { OnErr result (stored_in files.new f ≡ stored_in files.old f) }
    ensures others { (q : FileNo) → q ≢ f → stored_in files.new q ≡ stored_in files.old q }
{
    files.insert(f, stored)?;
    Ok(())
}
