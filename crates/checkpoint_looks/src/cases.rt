//! What sweeps are to do, and folders that hold it.
ghost use Rattle.std.specs.Prelude.{◌≡◌, ◌≤◌, ◌^◌};

use crate::asked::Meant;
use crate::diagrams::Assignment;
use crate::shapes::{Shape, value_at};
use arc_file::Unreduced;
use case_lives::{ENDS, INNER, TEXT_AT};
use case_tables::{
    Random, SECOND, THIRD, choice_of, product_of, put_bytes, quantified_of, restricted_of,
};
use rec_words::Ptr;
use shelf_memory::Bench;
use shelf_model::FileNo;
use std::alloc::{AllocError, Global};
use std::test::Fail;

/// A word of a script, behind which the bits of an evaluation stand.
const TEXT: [u8; 17] = *b"eval 000000000000";

/// Three operators: of "or", of "left and not right", whose arcs an implication makes, and of "not left".
const OR: u32 = 0b1110;

const REFUTES: u32 = 0b0100;

const NOT: u32 = 0b0011;

/// What a table is compared with.
#[derive(Clone, Copy)]
pub(crate) enum Other {
    /// Itself.
    Same,
    /// Its complement, which has as many nodes.
    Complement,
    /// One that asks for the other value of the last variable: of all nodes only the deepest one is another one.
    Opposite,
}

/// What a sweep is to do.
#[derive(Clone, Copy)]
pub(crate) enum Kind {
    /// An operation from the root down, by its own type.
    Own(Meant),
    /// The same as the operation of a step.
    OfStep(Meant),
    /// Whether the first table implies the second one, which holds or is left to chance.
    Implication(bool),
    /// The canonical file of the first table, from arcs of that shape.
    Reduction(Shape),
    /// The comparison of the first table with another one.
    Comparison(Other),
    /// The value of the first table at a place.
    Value(usize),
    /// The copy of the file of the first table as far as so many pieces.
    Copy(u64),
}

/// What a sweep is to do on random tables of so many variables, at most twelve.
#[derive(Clone, Copy)]
pub(crate) struct Plan {
    pub(crate) kind: Kind,
    pub(crate) variables: u32,
    pub(crate) seed: u64,
}

/// Three tables of as many variables.
#[derive(Drop)]
pub(crate) struct Tables {
    first: Vec<bool>,
    second: Vec<bool>,
    third: Vec<bool>,
}

// What a table has where the last variable is 1, and the last variable has a value itself.
fn with_last(alloc: Global, table: &[bool], value: usize) -> Result<Vec<bool>, AllocError> {
    let mut made = Vec::new(alloc);
    for place in 0..table.len() {
        let above = value_at(table, place | 1);
        made.push(above && place & 1 == value)?;
    }
    Ok(made)
}

// The first table, from a random one.
fn first_of(alloc: Global, kind: Kind, n: u32, random: &mut Random) -> Result<Vec<bool>, AllocError>
    requires { n ≤ 12 }
{
    let table = random.table(alloc, n, usize::MAX)?;
    match kind {
        Kind::Reduction(shape) => shape.table(alloc, table.as_slice()),
        Kind::Comparison(Other::Opposite) => with_last(alloc, table.as_slice(), 1),
        _ => Ok(table),
    }
}

// The second table, from the first and another random one. A quantifier reads one table twice.
fn second_of(
    alloc: Global,
    kind: Kind,
    n: u32,
    first: &[bool],
    random: &mut Random,
) -> Result<Vec<bool>, AllocError>
    requires { n ≤ 12 }
{
    let table = random.table(alloc, n, usize::MAX)?;
    match kind {
        Kind::Own(Meant::Quantifier(_, _))
        | Kind::OfStep(Meant::Quantifier(_, _))
        | Kind::Comparison(Other::Same) => Vec::from_slice(alloc, first),
        Kind::Comparison(Other::Opposite) => with_last(alloc, first, 0),
        Kind::Comparison(Other::Complement) => product_of(alloc, NOT, first, first),
        Kind::Implication(true) => product_of(alloc, OR, first, table.as_slice()),
        _ => Ok(table),
    }
}

impl Tables {
    /// Those of a plan, from random ones.
    pub(crate) fn of(alloc: Global, plan: Plan) -> Result<Tables, AllocError> {
        let (kind, n) = (plan.kind, plan.variables());
        let mut random = Random::new(plan.seed);
        let first = first_of(alloc, kind, n, &mut random)?;
        let second = second_of(alloc, kind, n, first.as_slice(), &mut random)?;
        let third = random.table(alloc, n, usize::MAX)?;
        Ok(Tables {
            first,
            second,
            third,
        })
    }

    /// The three of them.
    pub(crate) fn slices(&self) -> [&[bool]; 3] {
        [
            self.first.as_slice(),
            self.second.as_slice(),
            self.third.as_slice(),
        ]
    }

    /// What the sweep of a plan makes of them, or the first one, which it reads.
    pub(crate) fn wanted(&self, alloc: Global, plan: Plan) -> Result<Vec<bool>, AllocError> {
        let [first, second, third] = self.slices();
        let n = plan.variables();
        match plan.kind.operation() {
            Some(Meant::Operator(digits)) => product_of(alloc, digits, first, second),
            Some(Meant::Choice) => choice_of(alloc, first, second, third),
            Some(Meant::Quantifier(kind, level)) => quantified_of(alloc, n, kind, level, first),
            Some(Meant::Restriction(level, value)) => restricted_of(alloc, n, level, value, first),
            None => Vec::from_slice(alloc, first),
        }
    }

    /// The answer that a sweep has to give of which that table is wanted, if it is to give one.
    pub(crate) fn answer(&self, kind: Kind, wanted: &[bool]) -> Option<bool> {
        match kind {
            Kind::Implication(_) => Some(!has_one(wanted)),
            Kind::Comparison(_) => Some(self.first.as_slice() == self.second.as_slice()),
            Kind::Value(place) => self.first.as_slice().get(place).copied(),
            _ => None,
        }
    }

    /// Puts the arcs that a plan reduces, if it does.
    pub(crate) fn put_arcs(
        &self,
        alloc: Global,
        plan: Plan,
        bench: &mut Bench,
    ) -> Result<(), Fail> {
        let n = plan.variables();
        match plan.kind {
            Kind::Reduction(shape) => {
                put_made(bench, INNER, shape.inner(alloc, n))?;
                put_made(bench, ENDS, shape.ends(alloc, n, self.first.as_slice()))
            }
            _ => Ok(()),
        }
    }
}

impl Plan {
    /// How many variables its tables have.
    pub(crate) fn variables(self) -> u32
        ensures { result ≤ 12 }
    {
        self.variables.min(12)
    }

    /// The text that its sweep reads, with the bits of its place; those behind its variables are 0.
    pub(crate) fn text(self) -> [u8; 17] {
        let at = Assignment {
            variables: self.variables(),
            place: self.kind.place(),
        };
        let mut text = TEXT;
        for level in 0..12u32 {
            if at.bit(u64::from(level)) {
                put_one(&mut text, level);
            }
        }
        text
    }
}

// Makes the bit of a level of a text 1.
fn put_one(text: &mut [u8], level: u32) {
    if let Some(bit) = text.get_mut(level.saturating_add(TEXT_AT) as usize) {
        *bit = b'1';
    }
}

impl Kind {
    // The operation whose arcs its sweep makes.
    fn operation(self) -> Option<Meant> {
        match self {
            Kind::Own(meant) | Kind::OfStep(meant) => Some(meant),
            Kind::Implication(_) => Some(Meant::Operator(REFUTES)),
            _ => None,
        }
    }

    // The place whose value it asks for.
    fn place(self) -> usize {
        match self {
            Kind::Value(place) => place,
            _ => 0,
        }
    }

    /// The file of its third operand. The others are the first two.
    pub(crate) fn third(self) -> FileNo {
        match self {
            Kind::Implication(_) => SECOND,
            _ => THIRD,
        }
    }

    /// The operation whose checkpoints its sweep saves, and whether their words are those of a step's operation.
    pub(crate) fn saved_operation(self) -> Option<(Meant, bool)> {
        match self {
            Kind::OfStep(meant) => Some((meant, true)),
            _ => match self.operation() {
                Some(meant) => Some((meant, false)),
                None => None,
            },
        }
    }

    /// The number of its sweep in a step.
    pub(crate) fn sweep(self) -> u32
        ensures { result ≤ 1 }
    {
        match self {
            Kind::Reduction(_) => 1,
            _ => 0,
        }
    }
}

// Puts a file of bytes that were made.
fn put_made(
    bench: &mut Bench,
    file: FileNo,
    made: Result<Vec<u8>, AllocError>,
) -> Result<(), Fail> {
    let bytes = made?;
    put_bytes(bench, file, bytes.as_slice())
}

/// The arcs that stand in a folder, whose root is the first node of level 0.
pub(crate) fn arcs_in(bench: &Bench) -> Unreduced
    ensures files { (result.inner ≡ INNER) × (result.ends ≡ ENDS) }
    ensures few { (result.inner_count ≤ 2 ^ 46) × (result.ends_count ≤ 2 ^ 46) }
{
    let (inner, ends) = (bench.file(INNER).len() / 16, bench.file(ENDS).len() / 16);
    Unreduced {
        root: Ptr::node(0, 0),
        inner: INNER,
        inner_count: (inner as u64).min(1 << 20),
        ends: ENDS,
        ends_count: (ends as u64).min(1 << 20),
    }
}

fn has_one(table: &[bool]) -> bool {
    for value in table {
        if *value {
            return true;
        }
    }
    false
}
