//! What a checkpoint keeps of a sweep, but for its operation and its runs.
use crate::place::Asking;
use crate::sound::SoundAsk;
use saved_words::{Carried, Item, Words};
use shelf_model::FileNo;

/// An operand: its file, and how many of its nodes weren't read before the one at hand. None was read where that isn't
/// said.
#[derive(Clone, Copy)]
pub struct SavedOperand {
    pub file: FileNo,
    pub read: Option<u64>,
}

/// The two files of arcs, and how many arcs each has.
#[derive(Clone, Copy)]
pub struct SavedArcs {
    pub inner: FileNo,
    pub inner_count: u64,
    pub ends: FileNo,
    pub ends_count: u64,
}

/// The machine: where it stands, while asks are answered, and the last ask that was taken.
#[derive(Clone, Copy)]
pub struct SavedMachine {
    pub variables: u32,
    pub has_one: bool,
    pub first: SavedOperand,
    pub second: SavedOperand,
    pub third: SavedOperand,
    pub arcs: SavedArcs,
    pub asking: Option<Asking>,
    pub taken: Option<SoundAsk>,
}

type OperandParts = (FileNo, Option<u64>);

impl Carried for SavedOperand {
    ghost use Rattle.tuple_asks.specs.Saved.{operand_spelling};

    ghost count = { operand_spelling.count };

    ghost words = { operand_spelling.words };

    ghost is_value = { operand_spelling.is_value };

    fn put(&self, into: &mut Words) {
        (self.file, self.read).put(into);
    }

    fn put_none(into: &mut Words) {
        OperandParts::put_none(into);
    }

    fn get(from: &mut Words) -> Option<SavedOperand> {
        let (file, read) = OperandParts::get(from)?;
        Some(SavedOperand { file, read })
    }

    fn get_none(from: &mut Words) -> bool {
        OperandParts::get_none(from)
    }

    ghost long = { operand_spelling.long };

    ghost fits = { operand_spelling.fits };

    ghost differ = { operand_spelling.differ };
}

type ArcsParts = ((FileNo, u64), (FileNo, u64));

impl Carried for SavedArcs {
    ghost use Rattle.tuple_asks.specs.Saved.{arcs_spelling};

    ghost count = { arcs_spelling.count };

    ghost words = { arcs_spelling.words };

    ghost is_value = { arcs_spelling.is_value };

    fn put(&self, into: &mut Words) {
        let inner = (self.inner, self.inner_count);
        let ends = (self.ends, self.ends_count);
        (inner, ends).put(into);
    }

    fn put_none(into: &mut Words) {
        ArcsParts::put_none(into);
    }

    fn get(from: &mut Words) -> Option<SavedArcs> {
        let ((inner, inner_count), (ends, ends_count)) = ArcsParts::get(from)?;
        Some(SavedArcs {
            inner,
            inner_count,
            ends,
            ends_count,
        })
    }

    fn get_none(from: &mut Words) -> bool {
        ArcsParts::get_none(from)
    }

    ghost long = { arcs_spelling.long };

    ghost fits = { arcs_spelling.fits };

    ghost differ = { arcs_spelling.differ };
}

// The variables and whether an arc leads to 1, the operands, the arcs, and where it stands.
type Read = ((u32, bool), (SavedOperand, (SavedOperand, SavedOperand)));

type Made = (SavedArcs, (Option<Asking>, Option<Item<SoundAsk>>));

type MachineParts = (Read, Made);

impl SavedMachine {
    ghost use Rattle.std.specs.Prelude.{◌≡◌};
    ghost use Rattle.tuple_asks.specs.Saved.{machine_parts, machine_by};

    fn parts(&self) -> MachineParts
        ensures { result ≡ machine_parts self.now }
    {
        let taken = match self.taken {
            Some(value) => Some(Item { value }),
            None => None,
        };
        let read = (
            (self.variables, self.has_one),
            (self.first, (self.second, self.third)),
        );
        (read, (self.arcs, (self.asking, taken)))
    }

    // The one of these parts.
    fn of(parts: MachineParts) -> SavedMachine
        ensures { result ≡ machine_by parts }
    {
        let (read, (arcs, (asking, item))) = parts;
        let ((variables, has_one), (first, (second, third))) = read;
        let taken = match item {
            Some(item) => Some(item.value),
            None => None,
        };
        SavedMachine {
            variables,
            has_one,
            first,
            second,
            third,
            arcs,
            asking,
            taken,
        }
    }
}

impl Carried for SavedMachine {
    ghost use Rattle.tuple_asks.specs.Saved.{machine_spelling};

    ghost count = { machine_spelling.count };

    ghost words = { machine_spelling.words };

    ghost is_value = { machine_spelling.is_value };

    fn put(&self, into: &mut Words) {
        self.parts().put(into);
    }

    fn put_none(into: &mut Words) {
        MachineParts::put_none(into);
    }

    fn get(from: &mut Words) -> Option<SavedMachine> {
        let parts = MachineParts::get(from)?;
        Some(SavedMachine::of(parts))
    }

    fn get_none(from: &mut Words) -> bool {
        MachineParts::get_none(from)
    }

    ghost long = { machine_spelling.long };

    ghost fits = { machine_spelling.fits };

    ghost differ = { machine_spelling.differ };
}
