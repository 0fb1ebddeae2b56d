//! The steps that are run.
ghost use Rattle.std.specs.Prelude.{◌≡◌, ◌≤◌};
ghost use Rattle.step_engine.specs.Simple.{MayRun};

use bool_tables::{Bin, Planned, Quant, Step};

/// The step of a folder of two diagrams that is run.
pub(crate) const NUMBER: u32 = 2;

/// The name of a step, and the bits of an evaluation.
const TEXT: &[u8] = b"d 000000000000000000";

/// Where these bits stand.
const BITS_AT: u32 = 2;

pub(crate) const AND: Bin = Bin {
    v00: false,
    v01: false,
    v10: false,
    v11: true,
};

/// A step of that number over diagrams of `n` variables, and the text in which its name and its bits stand.
#[derive(Clone, Copy)]
pub(crate) struct Request {
    pub(crate) n: u32,
    pub(crate) text: &'static [u8],
    pub(crate) number: u32,
    pub(crate) planned: Planned,
    ghost may_run: { MayRun n text.now number planned },
}

/// Which step is run. In the least room each of them is saved once or more.
#[derive(Clone, Copy, Debug)]
pub(crate) enum Tried {
    /// A conjunction whose arcs and whose reduction are each saved several times.
    Both,
    /// A quantifier, whose arcs are saved twice and are reduced in the room.
    Some,
    /// An implication that holds.
    Implies,
    /// A comparison of two files that are the same.
    Same,
    /// An evaluation that passes most nodes of its file.
    Value,
}

impl Tried {
    pub(crate) fn request(self) -> Request
        ensures few { result.n ≤ 20 }
    {
        match self {
            Tried::Both => Request {
                n: 17,
                text: TEXT,
                number: NUMBER,
                planned: Planned {
                    step: Step::Pair {
                        op: AND,
                        left: 0,
                        right: 1,
                    },
                    name_at: 0,
                    name_len: 1,
                },
            },
            Tried::Some => Request {
                n: 16,
                text: TEXT,
                number: NUMBER,
                planned: Planned {
                    step: Step::Quantify {
                        kind: Quant::Exists,
                        of: 0,
                        level: 0,
                    },
                    name_at: 0,
                    name_len: 1,
                },
            },
            Tried::Implies => Request {
                n: 16,
                text: TEXT,
                number: NUMBER,
                planned: nameless(Step::Leq { left: 0, right: 1 }),
            },
            Tried::Same => Request {
                n: 18,
                text: TEXT,
                number: NUMBER,
                planned: nameless(Step::Same { left: 0, right: 1 }),
            },
            Tried::Value => Request {
                n: 18,
                text: TEXT,
                number: NUMBER,
                planned: nameless(Step::Eval { of: 0, at: BITS_AT }),
            },
        }
    }
}

// A step that answers.
fn nameless(step: Step) -> Planned
    ensures { result ≡ record { step = step; name_at = 0; name_len = 0 } }
{
    Planned {
        step,
        name_at: 0,
        name_len: 0,
    }
}
