ghost use Rattle.std.specs.Prelude.{◌≡◌, ◌+◌, ◌^◌, ◌<◌, ◌≤◌, IsTrue, IfOk, IsErrOf, vec_len};
ghost use Rattle.shelf_model.specs.Calls.{Told};
ghost use Rattle.shelf_model.specs.Faults.{Rose};
ghost use Rattle.script_runner.specs.Calls.{fetch_calls};
ghost use Rattle.script_runner.specs.Fetching.{OnlyFetched, IsText, OnlyTexts};
ghost use Rattle.script_runner.specs.declared.fetch.FetchFault.TheVariants.{Memory, Text};

use shelf_model::Station;
use std::alloc::{AllocError, Global};
use thiserror::Error;

/// Why a text can't be read.
#[derive(Clone, Copy, Debug, PartialEq, Eq, Error)]
pub(crate) enum FetchFault {
    #[error("out of memory")]
    Memory,
    #[error("no text can be read at the path")]
    Text,
}

impl From<AllocError> for FetchFault {
    ghost from_gives = { λ _ f. f ≡ Memory };

    fn from(_: AllocError) -> FetchFault {
        FetchFault::Memory
    }
}

/// Reads the text at a path, up to one byte past the most that is wanted.
pub(crate) fn fetch_text<W: Station>(
    alloc: Global,
    path: &str,
    most: usize,
    station: &mut W,
) -> Result<Vec<u8>, FetchFault>
    requires few { most < 2 ^ 32 }
    ensures content { Told W.tells station.old station.new (OnlyFetched (W.world station.old) (W.world station.new)) }
    ensures text { IfOk result (λ bytes. IsTrue (W.tells station.new) →
        IsText path.now most bytes.items (W.world station.old)) }
    ensures within { IfOk result (λ bytes. vec_len bytes ≤ most + 1) }
    ensures cause { IsErrOf result FetchFault.Text →
        Rose ((W.faults station.old).text path.now) ((W.faults station.new).text path.now) }
    ensures calls { IsTrue (W.tells station.new)
        → (W.world station.new).clock ≤ (W.world station.old).clock + fetch_calls most }
    ensures faults { OnlyTexts (W.faults station.old) (W.faults station.new) }
{
    let mut bytes = Vec::new(alloc);
    let mut piece = [0; 2048];
    'pieces: while bytes.len() <= most {
        let room = (most + 1 - bytes.len()).min(piece.len());
        let Ok(count) = station.fetch(path, bytes.len() as u64, &mut piece[..room]) else {
            return Err(FetchFault::Text);
        };
        if count == 0 {
            return Ok(bytes);
        }
        bytes.extend_from_slice(&piece[..count])?;
    }
    Ok(bytes)
}
