//! The bytes of a job, which a folder stores to tell it from others.
//!
//! Numbers have the highest byte first: `ADIARJ01` at 0 (8 bytes), the records of the room of the run that wrote them
//! at 8 (4 bytes), which tell no job from another, the length of the script at 12 (4), that of the netlist at 16 (4),
//! or four bytes 255 where there is none, the script at 20, and the netlist behind it.
ghost use Rattle.std.specs.Prelude.{◌≡◌, ◌≤◌, length, IfOk};
ghost use Rattle.command_words.specs.Views.{text_of};
ghost use Rattle.script_runner.specs.JobOf.{job_bytes, netlist_size, source_of, IsShort};

use byteorder::{BigEndian, ByteOrder};
use std::alloc::{AllocError, Global};

/// The length of a netlist, and four bytes 255 where there is none.
fn netlist_size(netlist: Option<&[u8]>) -> [u8; 4]
    requires short { IsShort (text_of netlist) }
    ensures { result ≡ netlist_size (text_of netlist.entry) }
{
    let mut size = [255; 4];
    if let Some(netlist) = netlist {
        BigEndian::write_u32(&mut size, netlist.len() as u32);
    }
    size
}

/// The bytes of the job of a script and maybe of a netlist, as a run with that budget writes them.
#[tactic(auto, unfolding(crate::specs::JobOf::job_bytes))]
pub(crate) fn job_bytes(
    alloc: Global,
    budget: u32,
    script: &[u8],
    netlist: Option<&[u8]>,
) -> Result<Vec<u8>, AllocError>
    requires short { length script.now ≤ 1048576 }
    requires short_netlist { IsShort (text_of netlist) }
    ensures { IfOk result (λ job. job.items ≡ job_bytes budget (source_of script.now (text_of netlist.entry))) }
{
    let mut head = [0u8; 16];
    head[0..8].copy_from_slice(b"ADIARJ01");
    BigEndian::write_u32(&mut head[8..12], budget);
    BigEndian::write_u32(&mut head[12..16], script.len() as u32);
    let mut job = Vec::new(alloc);
    job.extend_from_slice(&head)?;
    job.extend_from_slice(&netlist_size(netlist))?;
    job.extend_from_slice(script)?;
    if let Some(netlist) = netlist {
        job.extend_from_slice(netlist)?;
    }
    Ok(job)
}
