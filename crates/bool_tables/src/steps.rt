ghost use Rattle.std.specs.Prelude.{◌≡◌};
ghost use Rattle.bool_tables.specs.Steps.{op_value};

/// An operator on two truth values. `v01` is its value for left 0 and right 1.
#[derive(Clone, Copy, Debug, PartialEq, Eq)]
pub struct Bin {
    pub v00: bool,
    pub v01: bool,
    pub v10: bool,
    pub v11: bool,
}

impl Bin {
    /// The operator's value.
    pub fn value(self, left: bool, right: bool) -> bool
        ensures { result ≡ op_value self left right }
    {
        match (left, right) {
            (false, false) => self.v00,
            (false, true) => self.v01,
            (true, false) => self.v10,
            (true, true) => self.v11,
        }
    }
}

#[derive(Clone, Copy, Debug, PartialEq, Eq)]
pub enum Quant {
    Exists,
    Forall,
}

/// One step of a plan. Operands are the numbers of earlier steps, levels those of variables: level 0
/// is the variable that a diagram asks first. `Eval` reads its bits in the script, from the byte `at` on.
#[derive(Clone, Copy, Debug, PartialEq, Eq)]
pub enum Step {
    Const { value: bool },
    Var { level: u32 },
    Pair { op: Bin, left: u32, right: u32 },
    Ite { test: u32, yes: u32, no: u32 },
    Quantify { kind: Quant, of: u32, level: u32 },
    Restrict { of: u32, level: u32, value: bool },
    Drop { gone: u32 },
    Same { left: u32, right: u32 },
    Leq { left: u32, right: u32 },
    Eval { of: u32, at: u32 },
    Size { of: u32 },
}

/// A step, and where its name stands in the script. The length is 0 where it has none.
#[derive(Clone, Copy, Debug, PartialEq, Eq)]
pub struct Planned {
    pub step: Step,
    pub name_at: u32,
    pub name_len: u32,
}
