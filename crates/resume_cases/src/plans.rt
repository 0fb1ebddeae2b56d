//! What is compared, evaluated and copied, in folders that hold it.
ghost use Rattle.std.specs.Prelude.{◌≤◌};

use case_tables::{FIRST, Random, SECOND, canon_of, put_bytes};
use shelf_memory::Bench;
use std::alloc::Global;
use std::test::Fail;

/// A word of a script, behind which the bits stand.
const BEFORE: [u8; 5] = *b"eval ";

/// What a sweep is to do.
#[derive(Clone, Copy, Debug, PartialEq, Eq)]
pub(crate) enum Plan {
    /// The comparison of a random table of so many variables with itself.
    Same(u32),
    /// That with one that differs from it in its value at a place.
    Different(u32, usize),
    /// That with its complement, which has as many nodes.
    Complement(u32),
    /// The value of a random table of so many variables at a place.
    Value(u32, usize),
    /// The copy of a file of so many bytes, as far as so many pieces.
    Pieces(usize, u64),
}

pub(crate) const PLANS: [Plan; 18] = [
    Plan::Same(0),
    Plan::Same(1),
    Plan::Same(4),
    Plan::Different(1, 0),
    Plan::Different(4, 0),
    Plan::Different(4, 13),
    Plan::Complement(2),
    Plan::Complement(4),
    Plan::Value(0, 0),
    Plan::Value(2, 1),
    Plan::Value(4, 5),
    Plan::Value(5, 21),
    Plan::Value(5, 31),
    Plan::Pieces(0, 0),
    Plan::Pieces(100, 1),
    Plan::Pieces(5000, 3),
    Plan::Pieces(7000, 2),
    Plan::Pieces(3000, 5),
];

/// Some of each kind, of more turns than one.
pub(crate) const FEW: [Plan; 5] = [
    Plan::Complement(2),
    Plan::Complement(3),
    Plan::Value(4, 5),
    Plan::Pieces(5000, 3),
    Plan::Pieces(7000, 2),
];

/// The two files of a plan, the text, and the answer that its sweep has to give: of a copy, that the bytes are those.
#[derive(Drop)]
pub(crate) struct Case {
    pub(crate) plan: Plan,
    pub(crate) first: Vec<u8>,
    pub(crate) second: Vec<u8>,
    pub(crate) text: Vec<u8>,
    pub(crate) wanted: bool,
}

impl Plan {
    /// How many variables its tables have.
    pub(crate) fn variables(self) -> u32
        ensures { result ≤ 12 }
    {
        match self {
            Plan::Same(n) | Plan::Complement(n) => n.min(12),
            Plan::Different(n, _) | Plan::Value(n, _) => n.min(12),
            Plan::Pieces(_, _) => 0,
        }
    }

    // The value at a place of the table that another one, which has this value there, is compared with.
    fn compared(self, place: usize, value: bool) -> bool {
        match self {
            Plan::Different(_, other) => value != (place == other),
            Plan::Complement(_) => !value,
            _ => value,
        }
    }

    /// Its case.
    pub(crate) fn case(self, alloc: Global) -> Result<Case, Fail> {
        match self {
            Plan::Same(_) | Plan::Different(_, _) | Plan::Complement(_) => {
                tables_case(alloc, self)
            }
            Plan::Value(_, place) => value_case(alloc, self, place),
            Plan::Pieces(bytes, pieces) => copy_case(alloc, self, bytes, pieces),
        }
    }
}

// A table, and the one that it is compared with.
fn tables_case(alloc: Global, plan: Plan) -> Result<Case, Fail> {
    let n = plan.variables();
    let table = Random::new(u64::from(n)).table(alloc, n, usize::MAX)?;
    let mut other = Vec::new(alloc);
    for place in 0..table.len() {
        let value = table.as_slice().get(place).copied() == Some(true);
        other.push(plan.compared(place, value))?;
    }
    Ok(Case {
        plan,
        first: canon_of(alloc, n, table.as_slice())?,
        second: canon_of(alloc, n, other.as_slice())?,
        text: Vec::new(alloc),
        wanted: table.as_slice() == other.as_slice(),
    })
}

// A table, and the digits of a place.
fn value_case(alloc: Global, plan: Plan, place: usize) -> Result<Case, Fail> {
    let n = plan.variables();
    let table = Random::new(u64::from(n)).table(alloc, n, usize::MAX)?;
    let mut text = Vec::new(alloc);
    for byte in BEFORE {
        text.push(byte)?;
    }
    for level in 0..n {
        let bit = place >> (n - 1 - level) & 1 == 1;
        text.push(if bit { b'1' } else { b'0' })?;
    }
    text.push(b'\n')?;
    Ok(Case {
        plan,
        first: canon_of(alloc, n, table.as_slice())?,
        second: Vec::new(alloc),
        text,
        wanted: table.as_slice().get(place).copied() == Some(true),
    })
}

// Random bytes, and those of them that so many pieces have.
fn copy_case(alloc: Global, plan: Plan, bytes: usize, pieces: u64) -> Result<Case, Fail> {
    let mut random = Random::new(7);
    let mut first = Vec::new(alloc);
    let mut second = Vec::new(alloc);
    for place in 0..bytes {
        let byte = (random.next() % 256) as u8;
        first.push(byte)?;
        let piece = (place / 2048) as u64;
        if piece < pieces {
            second.push(byte)?;
        }
    }
    Ok(Case {
        plan,
        first,
        second,
        text: Vec::new(alloc),
        wanted: true,
    })
}

impl Case {
    /// A folder with its two files. A copy reads the first, and the second holds what it has to make.
    pub(crate) fn bench(&self, alloc: Global) -> Result<Bench, Fail> {
        let mut bench = Bench::empty(alloc);
        put_bytes(&mut bench, FIRST, self.first.as_slice())?;
        put_bytes(&mut bench, SECOND, self.second.as_slice())?;
        Ok(bench)
    }
}
