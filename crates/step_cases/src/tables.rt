//! Three tables that look random. A table of more than twenty variables is refused here, so that no case has to show
//! that its tables have fewer.
use case_tables::{Random, bench_of, canon_of, product_of};
use shelf_memory::Bench;
use std::alloc::{AllocError, Global};
use std::test::Fail;

/// The most variables of a table.
const MOST_VARIABLES: u32 = 20;

/// The places of a table that depends on each variable.
const ALL: usize = usize::MAX;

/// Both of two, and either of two.
const BOTH: u32 = 0b1000;

const EITHER: u32 = 0b1110;

/// Three tables of as many variables each.
#[derive(Drop)]
pub(crate) struct Triple {
    first: Vec<bool>,
    second: Vec<bool>,
    third: Vec<bool>,
}

impl Triple {
    /// Three tables with no values.
    pub(crate) fn none(alloc: Global) -> Triple {
        Triple {
            first: Vec::new(alloc),
            second: Vec::new(alloc),
            third: Vec::new(alloc),
        }
    }

    /// Three tables of n variables. Of each nine seeds that follow one another the tables are of one kind: all depend
    /// on each variable, the first or the two others on none, the first two on no common one, the first two are the
    /// same, or each depends on some as chance has it.
    pub(crate) fn of_seed(alloc: Global, n: u32, seed: u64) -> Result<Triple, Fail> {
        if n > MOST_VARIABLES {
            return Err(Fail::new("too many variables"));
        }
        let mut random = Random::new(seed);
        let kind = seed / 9 % 6;
        let (f, g, h) = variables_of(kind, &mut random);
        let alike = kind == 4;
        let mut other = if alike { random } else { Random::new(!seed) };
        let first = random.table(alloc, n, f)?;
        let second = other.table(alloc, n, g)?;
        let third = random.table(alloc, n, h)?;
        Ok(Triple {
            first,
            second,
            third,
        })
    }

    /// A table that depends on each variable, three times.
    pub(crate) fn of_one(alloc: Global, n: u32, seed: u64) -> Result<Triple, Fail> {
        let first = random_table(alloc, n, seed)?;
        let second = Vec::from_slice(alloc, first.as_slice())?;
        Triple::around(alloc, first, second)
    }

    /// Such a table, a constant, and the same table.
    pub(crate) fn with_constant(
        alloc: Global,
        n: u32,
        seed: u64,
        constant: bool,
    ) -> Result<Triple, Fail> {
        let first = random_table(alloc, n, seed)?;
        let second = vec![in alloc; constant; first.len()]?;
        Triple::around(alloc, first, second)
    }

    // A table, another one, and the first one again.
    fn around(alloc: Global, first: Vec<bool>, second: Vec<bool>) -> Result<Triple, Fail> {
        let third = Vec::from_slice(alloc, first.as_slice())?;
        Ok(Triple {
            first,
            second,
            third,
        })
    }

    /// Such a table, and none beside it.
    pub(crate) fn alone(alloc: Global, n: u32, seed: u64) -> Result<Triple, Fail> {
        let first = random_table(alloc, n, seed)?;
        Ok(Triple {
            first,
            second: Vec::new(alloc),
            third: Vec::new(alloc),
        })
    }

    /// The conjunction of the first two, the first, and their disjunction.
    pub(crate) fn ascending(&self, alloc: Global) -> Result<Triple, AllocError> {
        let (left, right) = (self.first.as_slice(), self.second.as_slice());
        let first = product_of(alloc, BOTH, left, right)?;
        let second = Vec::from_slice(alloc, left)?;
        let third = product_of(alloc, EITHER, left, right)?;
        Ok(Triple {
            first,
            second,
            third,
        })
    }

    /// The first, the second or the third table.
    pub(crate) fn table(&self, index: u32) -> &[bool] {
        match index {
            0 => self.first.as_slice(),
            1 => self.second.as_slice(),
            _ => self.third.as_slice(),
        }
    }
}

// Which variables the tables of a kind depend on.
fn variables_of(kind: u64, random: &mut Random) -> (usize, usize, usize) {
    match kind {
        0 => (ALL, ALL, ALL),
        1 => (0, ALL, ALL),
        2 => (ALL, 0, 0),
        3 => (0x55, 0xaa, ALL),
        4 => (ALL, ALL, 0x33),
        _ => (
            random.next() as usize,
            random.next() as usize,
            random.next() as usize,
        ),
    }
}

// A table that depends on each variable.
fn random_table(alloc: Global, n: u32, seed: u64) -> Result<Vec<bool>, Fail> {
    if n > MOST_VARIABLES {
        return Err(Fail::new("too many variables"));
    }
    Ok(Random::new(seed).table(alloc, n, ALL)?)
}

/// A folder whose files are the canonical ones of three tables of n variables.
pub(crate) fn folder_of(alloc: Global, n: u32, tables: &Triple) -> Result<Bench, Fail> {
    if n > MOST_VARIABLES {
        return Err(Fail::new("too many variables"));
    }
    bench_of(
        alloc,
        n,
        [tables.table(0), tables.table(1), tables.table(2)],
    )
}

/// The canonical file of a table of n variables, or no bytes where it isn't one.
pub(crate) fn canon_file_of(alloc: Global, n: u32, table: &[bool]) -> Result<Vec<u8>, Fail> {
    if n > MOST_VARIABLES {
        return Err(Fail::new("too many variables"));
    }
    canon_of(alloc, n, table)
}
