//! Operations on random tables, beside the canonical files of the tables that they make.
ghost use Rattle.std.specs.Prelude.{◌≤◌, length};
ghost use Rattle.top_down_cases.specs.declared.sweeping.TheConstants.{LEAST_ROOM};

use crate::meant::Meant;
use crate::sweeping::{EMPTY, LEAST_ROOM, ONE, THREE};
use bool_tables::Quant;
use case_tables::{Random, bench_of};
use rec_words::Rec;
use shelf_model::FileNo;
use std::alloc::{AllocError, Global};
use std::test::Fail;

/// How many triples of tables of each number of variables up to ten are operands.
const SEEDS: u64 = 37;

/// Up to how many variables each triple is an operand of each operation. Of more variables it is one of a fourth of
/// them, those that its seed chooses.
const ALL_UNTIL: u32 = 6;

/// Which operations are tried.
#[derive(Clone, Copy)]
enum Tried {
    Products,
    Choices,
    Quantifiers,
    Restrictions,
}

impl Tried {
    // How many there are on tables of n variables.
    fn count(self, n: u32) -> u32 {
        match self {
            Tried::Products => 16,
            Tried::Choices => 1,
            Tried::Quantifiers | Tried::Restrictions => n.saturating_mul(2),
        }
    }

    // The one of that number. There are two for each variable.
    fn meant(self, number: u32) -> Meant {
        let (variable, value) = (number / 2, number % 2 == 1);
        match self {
            Tried::Products => Meant::Operator(number),
            Tried::Choices => Meant::Choice,
            Tried::Quantifiers if value => Meant::Quantifier(Quant::Forall, variable),
            Tried::Quantifiers => Meant::Quantifier(Quant::Exists, variable),
            Tried::Restrictions => Meant::Restriction(variable, value),
        }
    }

    // The files of their operands.
    fn operands(self) -> [FileNo; 3] {
        match self {
            Tried::Products | Tried::Choices => THREE,
            Tried::Quantifiers | Tried::Restrictions => ONE,
        }
    }
}

// Whether the tables of a seed are operands of an operation.
fn is_tried(n: u32, seed: u64, meant: Meant) -> bool {
    let number = match meant {
        Meant::Operator(number) => number,
        Meant::Quantifier(_, variable) | Meant::Restriction(variable, _) => variable,
        Meant::Choice => return true,
    };
    n <= ALL_UNTIL || u64::from(number) % 4 == seed % 4
}

// A table of n variables, or of some of them as chance has it.
fn random_table(alloc: Global, n: u32, random: &mut Random) -> Result<Vec<bool>, AllocError>
    requires { n ≤ 10 }
{
    let variables = random.variables();
    random.table(alloc, n, variables)
}

// The number of the first operation on three tables that doesn't leave the canonical file of the table that it makes.
fn first_wrong_of(
    alloc: Global,
    tried: Tried,
    n: u32,
    seed: u64,
    tables: [&[bool]; 3],
    room: &mut [Rec],
) -> Result<Option<u32>, Fail>
    requires few { n ≤ 10 }
    requires enough { LEAST_ROOM ≤ length room.old }
{
    let mut bench = bench_of(alloc, n, tables)?;
    for number in 0..tried.count(n) {
        let meant = tried.meant(number);
        if is_tried(n, seed, meant)
            && !meant.leaves(alloc, n, tried.operands(), tables, room, &mut bench)?
        {
            return Ok(Some(number));
        }
    }
    Ok(None)
}

// The same of the random tables of a seed.
fn first_wrong_of_seed(
    alloc: Global,
    tried: Tried,
    n: u32,
    seed: u64,
    room: &mut [Rec],
) -> Result<Option<u32>, Fail>
    requires few { n ≤ 10 }
    requires enough { LEAST_ROOM ≤ length room.old }
{
    let mut random = Random::new(seed);
    let first = random_table(alloc, n, &mut random)?;
    let second = random_table(alloc, n, &mut random)?;
    let third = random_table(alloc, n, &mut random)?;
    let tables = [first.as_slice(), second.as_slice(), third.as_slice()];
    first_wrong_of(alloc, tried, n, seed, tables, room)
}

// The same of all seeds: the number of variables, the seed, and that of the operation.
fn first_wrong(alloc: Global, tried: Tried) -> Result<Option<(u32, u64, u32)>, Fail> {
    let mut records = vec![in alloc; EMPTY; LEAST_ROOM]?;
    let room = records.as_mut_slice();
    for n in 0..11 {
        for place in 0..SEEDS {
            let seed = 1 + 64 * u64::from(n) + place;
            if let Some(number) = first_wrong_of_seed(alloc, tried, n, seed, room)? {
                return Ok(Some((n, seed, number)));
            }
        }
    }
    Ok(None)
}

#[test]
fn products_leave_the_canonical_files(rt: HostRuntime) -> Result<(), Fail> {
    let wrong = first_wrong(rt.alloc(), Tried::Products)?;
    assert!(rt; wrong.is_none(), "{wrong:?}");
    Ok(())
}

#[test]
fn choices_leave_the_canonical_files(rt: HostRuntime) -> Result<(), Fail> {
    let wrong = first_wrong(rt.alloc(), Tried::Choices)?;
    assert!(rt; wrong.is_none(), "{wrong:?}");
    Ok(())
}

#[test]
fn quantifiers_leave_the_canonical_files(rt: HostRuntime) -> Result<(), Fail> {
    let wrong = first_wrong(rt.alloc(), Tried::Quantifiers)?;
    assert!(rt; wrong.is_none(), "{wrong:?}");
    Ok(())
}

#[test]
fn restrictions_leave_the_canonical_files(rt: HostRuntime) -> Result<(), Fail> {
    let wrong = first_wrong(rt.alloc(), Tried::Restrictions)?;
    assert!(rt; wrong.is_none(), "{wrong:?}");
    Ok(())
}
