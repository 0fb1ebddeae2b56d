//! Sweeps that are refused, and operand files that no program wrote.
ghost use Rattle.std.specs.Prelude.{◌≤◌, length};
ghost use Rattle.top_down_cases.specs.declared.sweeping.TheConstants.{LEAST_ROOM};

use crate::meant::Meant;
use crate::sweeping::{EMPTY, LEAST_ROOM, ONE, THREE};
use bool_tables::Quant;
use case_tables::{FIRST, Random, SECOND, bench_of, put_bytes};
use rec_words::Rec;
use shelf_memory::Bench;
use shelf_model::{FileNo, SortFault};
use std::alloc::Global;
use std::test::Fail;

const VARIABLES: u32 = 4;

/// A small case: an operation, and the files of its operands.
struct Small {
    name: &'static str,
    meant: Meant,
    operands: [FileNo; 3],
}

const CASES: &[Small] = &[
    Small {
        name: "an exclusive or",
        meant: Meant::Operator(0b0110),
        operands: THREE,
    },
    Small {
        name: "a conjunction of one file",
        meant: Meant::Operator(0b1000),
        operands: ONE,
    },
    Small {
        name: "a choice",
        meant: Meant::Choice,
        operands: THREE,
    },
    Small {
        name: "a quantifier",
        meant: Meant::Quantifier(Quant::Exists, 1),
        operands: ONE,
    },
    Small {
        name: "a restriction",
        meant: Meant::Restriction(2, true),
        operands: ONE,
    },
];

impl Small {
    // What it leaves.
    fn run(&self, room: &mut [Rec], bench: &mut Bench) -> Result<Option<u64>, SortFault>
        requires { LEAST_ROOM ≤ length room.old }
    {
        self.meant.reduced(VARIABLES, self.operands, room, bench)
    }
}

// A folder with the files of three random tables.
fn random_bench(alloc: Global) -> Result<Bench, Fail> {
    let mut random = Random::new(1);
    let first = random.table(alloc, VARIABLES, usize::MAX)?;
    let second = random.table(alloc, VARIABLES, usize::MAX)?;
    let third = random.table(alloc, VARIABLES, usize::MAX)?;
    let tables = [first.as_slice(), second.as_slice(), third.as_slice()];
    bench_of(alloc, VARIABLES, tables)
}

// How a case ended of which a call was to fail.
#[derive(Clone, Copy)]
enum End {
    // With that call.
    AtTheCall,
    // As an undisturbed one, for the call is never made.
    Undisturbed,
    // Otherwise.
    Wrong,
}

// What an end is, where an undisturbed case leaves so many nodes; and whether the call was never made.
fn end_of(left: Result<Option<u64>, SortFault>, count: Option<u64>, never: bool) -> End {
    match left {
        Ok(found) if found.is_some() && found == count && never => End::Undisturbed,
        Err(SortFault::Shelf) => End::AtTheCall,
        _ => End::Wrong,
    }
}

// How a case ends of which a call fails, where an undisturbed one leaves so many nodes.
fn end_with(
    alloc: Global,
    small: &Small,
    call: u64,
    count: Option<u64>,
    room: &mut [Rec],
) -> Result<End, Fail>
    requires { LEAST_ROOM ≤ length room.old }
{
    let mut bench = random_bench(alloc)?;
    let last = bench.clock().saturating_add(call);
    bench.fail_at(last)?;
    let left = small.run(room, &mut bench);
    Ok(end_of(left, count, bench.clock() <= last))
}

// Whether each of the first calls that fails ends a case, and later ones are never made.
fn each_call_ends(alloc: Global, small: &Small, room: &mut [Rec]) -> Result<bool, Fail>
    requires { LEAST_ROOM ≤ length room.old }
{
    let mut undisturbed = random_bench(alloc)?;
    let count = small.run(room, &mut undisturbed).ok().flatten();
    let mut ended = false;
    for call in 0..60 {
        match end_with(alloc, small, call, count, room)? {
            End::AtTheCall => {}
            End::Undisturbed => ended = true,
            End::Wrong => return Ok(false),
        }
    }
    Ok(ended)
}

// Whether a case over a file of these bytes ends, or says that an operand's file is damaged.
fn ends_or_tells_damage(
    small: &Small,
    bytes: &[u8],
    room: &mut [Rec],
    bench: &mut Bench,
) -> Result<bool, Fail>
    requires { LEAST_ROOM ≤ length room.old }
{
    put_bytes(bench, FIRST, bytes)?;
    match small.run(room, bench) {
        Ok(count) => Ok(count.is_some()),
        Err(SortFault::Damaged { file, .. }) => Ok(file == FIRST || file == SECOND),
        Err(_) => Ok(false),
    }
}

// Changes bits of the byte at a place.
fn flip(bytes: &mut [u8], at: usize, bits: u8) {
    if let Some(byte) = bytes.get_mut(at) {
        *byte ^= bits;
    }
}

// The same over a file that has another byte at a place. The bytes are as before then.
fn ends_with_another_byte(
    small: &Small,
    bytes: &mut [u8],
    at: usize,
    room: &mut [Rec],
    bench: &mut Bench,
) -> Result<bool, Fail>
    requires { LEAST_ROOM ≤ length room.old }
{
    let mut ends = true;
    for bits in [1u8, 0x80, 0xff] {
        flip(bytes, at, bits);
        ends = ends && ends_or_tells_damage(small, bytes, room, bench)?;
        flip(bytes, at, bits);
    }
    Ok(ends)
}

// The same over each file that is a front of these bytes, or that has another byte somewhere.
fn ends_with_each_change(
    small: &Small,
    bytes: &mut [u8],
    room: &mut [Rec],
    bench: &mut Bench,
) -> Result<bool, Fail>
    requires { LEAST_ROOM ≤ length room.old }
{
    for at in 0..bytes.len() {
        let (front, _back) = bytes.split_at(at);
        let early = ends_or_tells_damage(small, front, room, bench)?;
        if !early || !ends_with_another_byte(small, bytes, at, room, bench)? {
            return Ok(false);
        }
    }
    Ok(true)
}

// The same over each file that ends early, or that has another byte somewhere.
fn ends_with_changed_bytes(alloc: Global, small: &Small, room: &mut [Rec]) -> Result<bool, Fail>
    requires { LEAST_ROOM ≤ length room.old }
{
    let mut bench = random_bench(alloc)?;
    let mut bytes = Vec::from_slice(alloc, bench.file(FIRST))?;
    ends_with_each_change(small, bytes.as_mut_slice(), room, &mut bench)
}

/// How cases are disturbed.
#[derive(Clone, Copy)]
enum Disturbed {
    /// Calls fail.
    Calls,
    /// The file of the first operand is another one.
    Bytes,
}

// The first case that doesn't end as it has to.
fn first_wrong(alloc: Global, disturbed: Disturbed) -> Result<Option<&'static str>, Fail> {
    let mut records = vec![in alloc; EMPTY; LEAST_ROOM]?;
    let room = records.as_mut_slice();
    for small in CASES {
        let ends = match disturbed {
            Disturbed::Calls => each_call_ends(alloc, small, room),
            Disturbed::Bytes => ends_with_changed_bytes(alloc, small, room),
        };
        if !ends? {
            return Ok(Some(small.name));
        }
    }
    Ok(None)
}

#[test]
fn each_failing_call_ends_a_sweep(rt: HostRuntime) -> Result<(), Fail> {
    let wrong = first_wrong(rt.alloc(), Disturbed::Calls)?;
    assert!(rt; wrong.is_none(), "{wrong:?}");
    Ok(())
}

#[test]
fn a_changed_operand_is_damaged_or_ends(rt: HostRuntime) -> Result<(), Fail> {
    let wrong = first_wrong(rt.alloc(), Disturbed::Bytes)?;
    assert!(rt; wrong.is_none(), "{wrong:?}");
    Ok(())
}
