//! Comparisons and evaluations in as many turns as their files have nodes, and one.
ghost use Rattle.std.specs.Prelude.{◌+◌, ◌≤◌, length};

use rec_words::{NODE_SIZE, Rec};
use restrict_eval::{EvalSweep, SameSweep};
use run_merge::Parts;
use shelf_memory::Bench;
use shelf_model::{FileNo, SortFault};
use std::test::Fail;
use sweep_core::{Turn, drive};

pub(crate) const FIRST: FileNo = FileNo { step: 0, part: 0 };

pub(crate) const SECOND: FileNo = FileNo { step: 1, part: 0 };

const PARTS: Parts = Parts { step: 2, next: 3 };

const EMPTY: Rec = Rec { w: [0; 8] };

/// Puts bytes into a file.
pub(crate) fn put(f: FileNo, bytes: &[u8], bench: &mut Bench) -> Result<(), Fail> {
    if bytes.len() > 1 << 30 {
        return Err("too long".into());
    }
    Ok(bench.put_file(f, bytes)?)
}

fn nodes_in(bench: &Bench, f: FileNo) -> u64 {
    (bench.file(f).len() as u64 / NODE_SIZE).saturating_sub(1)
}

/// Whether two files stand for the same table. None is answered where that takes more turns.
pub(crate) fn compare(
    n: u32,
    f: FileNo,
    g: FileNo,
    bench: &mut Bench,
) -> Result<Option<bool>, SortFault> {
    let turns = nodes_in(bench, f)
        .saturating_add(nodes_in(bench, g))
        .saturating_add(1);
    let mut room = [EMPTY; 176];
    let mut sweep = SameSweep::start(n, f, g, PARTS, &mut room, bench)?;
    match drive(&mut sweep, turns, bench)? {
        Turn::Ended => Ok(sweep.answer()),
        Turn::More => Ok(None),
    }
}

/// The value of the first file at the assignment whose bits stand in the text. None is answered where that takes
/// more turns.
pub(crate) fn evaluate(
    n: u32,
    text: &[u8],
    at: u32,
    bench: &mut Bench,
) -> Result<Option<bool>, SortFault>
    requires bits { at + n ≤ length text.now }
{
    let turns = nodes_in(bench, FIRST).saturating_add(1);
    let mut room = [EMPTY; 88];
    let mut sweep = EvalSweep::start(n, FIRST, text, at, PARTS, &mut room, bench)?;
    match drive(&mut sweep, turns, bench)? {
        Turn::Ended => Ok(sweep.answer()),
        Turn::More => Ok(None),
    }
}
