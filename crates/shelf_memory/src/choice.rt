// Which of the bytes that a stop may leave are taken.
ghost use Rattle.std.specs.Prelude.{◌≡◌, IfOk};
ghost use Rattle.shelf_model.specs.declared.file_no.FileNo.{FileNo};
ghost use Rattle.shelf_memory.specs.Changes.{file_of};
ghost use Rattle.shelf_memory.specs.Choices.{sure_of, filled_of, chosen_of};

use crate::change::Stored;
use shelf_model::FileNo;
use std::alloc::{AllocError, Global};

/// Which of its images a stop leaves of a folder.
#[derive(Clone, Copy, Debug, PartialEq, Eq)]
pub enum Choice {
    /// Of each file what is sure.
    Firm,
    /// Each file as it is read.
    Present,
    /// Of each file what is sure, and then this byte as far as the file may reach.
    Fill(u8),
    /// A file is as under `Firm`, `Present` or `Fill(255)` where the sum of its step, its part and this number leaves
    /// 0, 1 or 2 by 3.
    Mixed(u64),
}

/// The bytes that the choice takes of a file.
pub fn chosen(
    alloc: Global,
    choice: Choice,
    f: FileNo,
    stored: &Stored,
) -> Result<Vec<u8>, AllocError>
    ensures { IfOk result (λ bytes. bytes.items ≡ chosen_of choice f (file_of stored.now)) }
{
    match choice {
        Choice::Firm => sure(alloc, stored),
        Choice::Present => Vec::from_slice(alloc, &stored.bytes),
        Choice::Fill(byte) => filled(alloc, byte, stored),
        Choice::Mixed(number) => {
            let rest = (f.step as u128 + f.part as u128 + number as u128) % 3;
            if rest == 0 {
                sure(alloc, stored)
            } else if rest == 1 {
                Vec::from_slice(alloc, &stored.bytes)
            } else {
                filled(alloc, 255, stored)
            }
        }
    }
}

fn sure(alloc: Global, stored: &Stored) -> Result<Vec<u8>, AllocError>
    ensures { IfOk result (λ bytes. bytes.items ≡ sure_of (file_of stored.now)) }
{
    Vec::from_slice(alloc, &stored.bytes[..stored.firm as usize])
}

fn filled(alloc: Global, byte: u8, stored: &Stored) -> Result<Vec<u8>, AllocError>
    ensures { IfOk result (λ bytes. bytes.items ≡ filled_of byte (file_of stored.now)) }
{
    let mut bytes = sure(alloc, stored)?;
    bytes.resize(stored.reach as usize, byte)?;
    Ok(bytes)
}
