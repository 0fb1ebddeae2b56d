// What no clause says: calls with ample memory succeed, the bytes of worked jobs and entries, and a call
// that fails in mid-stream.
ghost use Rattle.std.specs.Prelude.{◌≡◌};

use catalogue::{
    AttachFault, CATALOGUE, Entry, JOB, JOB_GATE, STEP_GATE, Standing, attach, commit, entry,
};
use shelf_memory::{Bench, Choice};
use shelf_model::{FileNo, Shelf, StreamFault};
use std::alloc::Global;
use std::test::Fail;

// A budget of 262,144 records, a script of 19 bytes and no netlist.
pub(crate) const ROW: [u8; 39] =
    *b"ADIARJ01\x00\x04\x00\x00\x00\x00\x00\x13\xff\xff\xff\xffvars a b c\nvar f b\n";

pub(crate) const FRESH: Standing = Standing {
    fresh: true,
    done: 0,
};

// A diagram of one node, of a name of one letter.
pub(crate) fn node(number: u32, letter: u8) -> Entry
    ensures { result.number ≡ number }
{
    let mut name = [0; 63];
    name[0] = letter;
    Entry {
        number,
        kind: 1,
        answer: 0,
        count: 1,
        turns: 1,
        parts: 3,
        name_len: 1,
        name,
    }
}

// What a later attachment finds, with so many steps committed.
pub(crate) fn again(done: u32) -> Standing {
    Standing { fresh: false, done }
}

fn damaged_at(file: FileNo, at: u64) -> Result<Standing, AttachFault> {
    Err(AttachFault::Damaged { file, at })
}

// Whether a job is stored behind its open gate, and found there again.
fn is_stored_once(alloc: Global) -> Result<bool, Fail> {
    let mut bench = Bench::empty(alloc);
    let first = attach(&ROW, 1, &mut bench)?;
    let stored = bench.file(JOB) == ROW.as_slice() && bench.file(JOB_GATE) == [0].as_slice();
    let second = attach(&ROW, 1, &mut bench)?;
    Ok(first == FRESH && stored && second == again(0))
}

#[test]
fn stores_a_job_once(rt: HostRuntime) -> Result<(), Fail> {
    assert!(rt; is_stored_once(rt.alloc())?);
    Ok(())
}

// Whether another job is refused where the stored one stands, with the place of the first byte that differs.
fn refuses_at(alloc: Global, job: &[u8], at: u64) -> Result<bool, Fail> {
    let mut bench = Bench::empty(alloc);
    attach(&ROW, 1, &mut bench)?;
    Ok(attach(job, 1, &mut bench) == Err(AttachFault::OtherJob { at }))
}

#[test]
fn refuses_another_job(rt: HostRuntime) -> Result<(), Fail> {
    // The last byte before the budget, the first behind it where the budget differs too, and the shorter length.
    let cases: [(&[u8], u64); 4] = [
        (
            b"ADIARJ02\x00\x04\x00\x00\x00\x00\x00\x13\xff\xff\xff\xffvars a b c\nvar f b\n",
            7,
        ),
        (
            b"ADIARJ01\x00\x00\x40\x00\x01\x00\x00\x13\xff\xff\xff\xffvars a b c\nvar f c\n",
            12,
        ),
        (
            b"ADIARJ01\x00\x04\x00\x00\x00\x00\x00\x13\xff\xff\xff\xffvars a b c\n",
            31,
        ),
        (
            b"ADIARJ01\x00\x04\x00\x00\x00\x00\x00\x13\xff\xff\xff\xffvars a b c\nvar f b\n#",
            39,
        ),
    ];
    for (job, at) in cases {
        assert!(rt; refuses_at(rt.alloc(), job, at)?, "{at}");
    }
    Ok(())
}

// Whether a job goes on with this budget, and its file has the one that it was stored with.
fn goes_on_with(alloc: Global, budget: [u8; 4]) -> Result<bool, Fail> {
    let mut job = ROW;
    job[8..12].copy_from_slice(&budget);
    let mut bench = Bench::empty(alloc);
    let begun = attach(&ROW, 1, &mut bench)?;
    if begun.done != 0 {
        return Ok(false);
    }
    commit(&node(0, b'f'), &mut bench)?;
    let counted = attach(&job, 1, &mut bench) == Ok(again(1));
    Ok(counted && bench.file(JOB) == ROW.as_slice())
}

#[test]
fn goes_on_with_another_budget(rt: HostRuntime) -> Result<(), Fail> {
    for budget in [[0, 0, 0x40, 0], [0xff; 4]] {
        assert!(rt; goes_on_with(rt.alloc(), budget)?, "{budget:?}");
    }
    Ok(())
}

// Whether three steps that are committed count, and the gate or the catalogue is damaged where they don't match.
fn counts_three_steps(alloc: Global) -> Result<bool, Fail> {
    let mut bench = Bench::empty(alloc);
    let begun = attach(&ROW, 3, &mut bench)?;
    if begun.done != 0 {
        return Ok(false);
    }
    commit(&node(0, b'f'), &mut bench)?;
    commit(&node(1, b'g'), &mut bench)?;
    commit(&node(2, b'h'), &mut bench)?;
    let counted = attach(&ROW, 3, &mut bench) == Ok(again(3));
    let few = attach(&ROW, 2, &mut bench);
    bench.cut(CATALOGUE, 300)?;
    let torn = attach(&ROW, 3, &mut bench);
    Ok(counted && few == damaged_at(STEP_GATE, 2) && torn == damaged_at(CATALOGUE, 256))
}

#[test]
fn counts_committed_steps(rt: HostRuntime) -> Result<(), Fail> {
    assert!(rt; counts_three_steps(rt.alloc())?);
    Ok(())
}

// Whether a gate with bytes is emptied where no job is stored.
fn empties_the_gate(alloc: Global) -> Result<bool, Fail> {
    let mut bench = Bench::empty(alloc);
    bench.append(STEP_GATE, 0, &[0; 3])?;
    Ok(attach(&ROW, 1, &mut bench)? == FRESH && bench.file(STEP_GATE).is_empty())
}

#[test]
fn empties_a_gate_of_no_job(rt: HostRuntime) -> Result<(), Fail> {
    assert!(rt; empties_the_gate(rt.alloc())?);
    Ok(())
}

// The bytes of `node(0, b'f')`.
pub(crate) fn first_bytes() -> [u8; 128] {
    let mut bytes = [0; 128];
    bytes[4] = 1;
    bytes[6] = 1;
    bytes[15] = 1;
    bytes[23] = 1;
    bytes[31] = 3;
    bytes[32] = b'f';
    bytes
}

// Whether a committed entry has its bytes.
fn is_laid_out(alloc: Global) -> Result<bool, Fail> {
    let mut bench = Bench::empty(alloc);
    let begun = attach(&ROW, 3, &mut bench)?;
    if begun.done != 0 {
        return Ok(false);
    }
    commit(&node(0, b'f'), &mut bench)?;
    Ok(bench.file(CATALOGUE) == first_bytes().as_slice())
}

#[test]
fn lays_out_an_entry(rt: HostRuntime) -> Result<(), Fail> {
    assert!(rt; is_laid_out(rt.alloc())?);
    Ok(())
}

// Whether step 0 is read so where the bytes of the worked entry are its entry, with this byte at that place.
fn reads_as(
    alloc: Global,
    place: usize,
    byte: u8,
    wanted: Result<Entry, StreamFault>,
) -> Result<bool, Fail> {
    let mut bytes = first_bytes();
    if let Some(changed) = bytes.get_mut(place) {
        *changed = byte;
    }
    let mut bench = Bench::empty(alloc);
    bench.append(CATALOGUE, 0, &bytes)?;
    bench.append(JOB_GATE, 0, &[0])?;
    bench.append(STEP_GATE, 0, &[0])?;
    Ok(entry(0, &mut bench) == wanted)
}

#[test]
fn reads_an_entry_back(rt: HostRuntime) -> Result<(), Fail> {
    assert!(rt; reads_as(rt.alloc(), 32, b'f', Ok(node(0, b'f')))?);
    Ok(())
}

#[test]
fn refuses_what_breaks_the_layout(rt: HostRuntime) -> Result<(), Fail> {
    let damaged = StreamFault::Damaged {
        file: CATALOGUE,
        at: 0,
    };
    // Another step, kinds and answers that are none, a name that is too long or not a diagram's, a byte
    // that is to be 0, no turn, and bytes behind the name and behind all fields.
    let cases = [
        (3, 1),
        (4, 0),
        (4, 4),
        (5, 1),
        (5, 2),
        (6, 64),
        (4, 2),
        (7, 1),
        (23, 0),
        (33, 1),
        (94, 1),
        (95, 1),
        (127, 1),
    ];
    for (place, byte) in cases {
        assert!(rt;
            reads_as(rt.alloc(), place, byte, Err(damaged))?,
            "byte {byte} at {place}"
        );
    }
    Ok(())
}

// Whether so many steps count where this call failed the first commit.
fn counts_after_failing(alloc: Global, call: u64, done: u32) -> Result<bool, Fail> {
    let mut bench = Bench::empty(alloc);
    let begun = attach(&ROW, 1, &mut bench)?;
    let calls = bench.clock();
    bench.fail_at(call)?;
    let failed = commit(&node(begun.done, b'f'), &mut bench).is_err();
    Ok(calls == 10 && failed && attach(&ROW, 1, &mut bench) == Ok(again(done)))
}

#[test]
fn counts_what_stands_after_a_failed_commit(rt: HostRuntime) -> Result<(), Fail> {
    // Attaching a job of one piece to an empty folder takes ten calls, and a commit five: a cut, an
    // append and a sync of the catalogue, an append and a sync of the gate.
    let cases = [(10, 0), (11, 0), (12, 0), (13, 0), (14, 1)];
    for (call, done) in cases {
        assert!(rt; counts_after_failing(rt.alloc(), call, done)?, "{call}");
    }
    Ok(())
}

// Whether so many steps count behind a stop where the gate has one byte that isn't sure.
fn counts_after_a_stop(alloc: Global, choice: Choice, done: u32) -> Result<bool, Fail> {
    let mut bench = Bench::empty(alloc);
    let begun = attach(&ROW, 1, &mut bench)?;
    if begun.done != 0 {
        return Ok(false);
    }
    bench.fail_at(14)?;
    let failed = commit(&node(0, b'f'), &mut bench).is_err();
    let mut next = bench.stop(choice)?;
    Ok(failed && attach(&ROW, 1, &mut next) == Ok(again(done)))
}

#[test]
fn counts_what_a_stop_leaves(rt: HostRuntime) -> Result<(), Fail> {
    let cases = [
        (Choice::Firm, 0),
        (Choice::Present, 1),
        (Choice::Fill(7), 1),
    ];
    for (choice, done) in cases {
        assert!(rt; counts_after_a_stop(rt.alloc(), choice, done)?, "{done}");
    }
    Ok(())
}
