//! How far the job that is stored is this one, whatever the budgets of the runs that wrote them.
//!
//! The budget is at the places 8 to 11 of a job's bytes, so all of it is in the first piece.
ghost use Rattle.std.specs.Prelude.{◌≡◌, ◌↔◌, ◌+◌, ◌<◌, ◌≤◌, IsTrue, IfOk, length, nat_eq};
ghost use Rattle.std.specs.List.{common_prefix_len};
ghost use Rattle.shelf_model.specs.World.{now, file};
ghost use Rattle.shelf_model.specs.Calls.{Told};
ghost use Rattle.shelf_model.specs.Moments.{Ran, Stays};
ghost use Rattle.shelf_model.specs.Faults.{OnlyFolder};
ghost use Rattle.catalogue.specs.Files.{job_file};
ghost use Rattle.catalogue.specs.Standings.{without_budget};
ghost use Rattle.file_writes.specs.Writes.{pieces};

use file_numbers::JOB;
use shelf_model::{Failed, PIECE, Shelf};

// Whether byte `i` of the piece that stands at `at` is one of the budget.
fn is_of_budget(at: usize, i: usize) -> bool
    ensures { IsTrue result ↔ ((at ≡ 0) × (8 ≤ i) × (i < 12)) }
{
    at == 0 && i >= 8 && i < 12
}

// How many bytes from the front on are the same, of pieces that stand at that place of two jobs.
fn shared_len(at: usize, a: &[u8], b: &[u8]) -> usize
    ensures first { at ≡ 0
        → result ≡ common_prefix_len nat_eq (without_budget a.now) (without_budget b.now) }
    ensures later { 0 < at → result ≡ common_prefix_len nat_eq a.now b.now }
{
    let end = a.len().min(b.len());
    for i in 0..end {
        if a[i] != b[i] && !is_of_budget(at, i) {
            return i;
        }
    }
    end
}

/// How many bytes from the front on the stored job, of `size` bytes, shares with this one, but for the budget.
pub(crate) fn shared_with_stored<S: Shelf>(
    job: &[u8],
    size: u64,
    shelf: &mut S,
) -> Result<u64, Failed>
    requires all { IsTrue (S.tells shelf.old)
        → size ≡ length (file (S.world shelf.old) job_file).bytes }
    ensures content { Told S.tells shelf.old shelf.new
        (Ran (Stays (now (S.world shelf.old))) (S.world shelf.old) (S.world shelf.new)) }
    ensures ok { IfOk result (λ n. IsTrue (S.tells shelf.new)
        → n ≡ common_prefix_len nat_eq (without_budget (file (S.world shelf.old) job_file).bytes)
        (without_budget job.now)) }
    ensures calls { IsTrue (S.tells shelf.new)
        → (S.world shelf.new).clock ≤ (S.world shelf.old).clock + pieces (length job.now) }
    ensures faults { OnlyFolder (S.faults shelf.old) (S.faults shelf.new) result }
{
    let end = size.min(job.len() as u64) as usize;
    let mut piece = [0u8; PIECE];
    let mut at = 0;
    while at < end {
        let want = PIECE.min(end - at);
        let got = shelf.read_at(JOB, at as u64, &mut piece[..want])?;
        let same = shared_len(at, &piece[..got], &job[at..at + want]);
        if same < want {
            return Ok((at + same) as u64);
        }
        at += want;
    }
    Ok(end as u64)
}
