//! Operations, and the tuples that are asked for.
use crate::diagrams::{Assignment, NO, NodeList, level_of, truth_of};
use crate::words::{Record, Wrong};
use bool_tables::{Bin, Quant};
use case_tables::operator;

/// What an operation means. An operator is given by a number, whose binary digits are its four values.
#[derive(Clone, Copy)]
pub(crate) enum Meant {
    Operator(u32),
    Choice,
    Quantifier(Quant, u32),
    Restriction(u32, bool),
}

// The operator that a quantifier makes of two values.
fn join_of(kind: Quant) -> Bin {
    match kind {
        Quant::Exists => operator(0b1110),
        Quant::Forall => operator(0b1000),
    }
}

// The value of an operator over two values, of which one may be refused.
fn joined_of(op: Bin, a: Result<bool, Wrong>, b: Result<bool, Wrong>) -> Result<bool, Wrong> {
    match (a, b) {
        (Ok(a), Ok(b)) => Ok(op.value(a, b)),
        (Err(wrong), _) | (_, Err(wrong)) => Err(wrong),
    }
}

impl Meant {
    // The words of an operation of its own kind.
    fn own_words(self) -> [u64; 4] {
        match self {
            Meant::Operator(digits) => {
                let op = operator(digits);
                let (a, b) = (u64::from(op.v00), u64::from(op.v01));
                [a, b, u64::from(op.v10), u64::from(op.v11)]
            }
            Meant::Choice => [0; 4],
            Meant::Quantifier(Quant::Exists, variable) => [1, u64::from(variable), 0, 0],
            Meant::Quantifier(Quant::Forall, variable) => [0, u64::from(variable), 0, 0],
            Meant::Restriction(variable, value) => [u64::from(variable), u64::from(value), 0, 0],
        }
    }

    /// The words of an operation, of its own kind or as that of a step.
    pub(crate) fn words(self, of_step: bool) -> [u64; 11] {
        let [a, b, c, d] = self.own_words();
        match self {
            Meant::Operator(_) if of_step => [1, a, b, c, d, 0, 0, 0, 0, 0, 0],
            Meant::Quantifier(_, _) if of_step => [0, 0, 0, 0, 0, 1, a, b, 0, 0, 0],
            Meant::Restriction(_, _) if of_step => [0, 0, 0, 0, 0, 0, 0, 0, 1, a, b],
            _ => [a, b, c, d, 0, 0, 0, 0, 0, 0, 0],
        }
    }

    // How many members the operation uses.
    fn members(self) -> usize {
        match self {
            Meant::Operator(_) | Meant::Quantifier(_, _) => 2,
            Meant::Choice => 3,
            Meant::Restriction(_, _) => 1,
        }
    }

    /// The value of a tuple's function from those of its members.
    pub(crate) fn value(self, asks: &Asked<'_>, at: Assignment) -> Result<bool, Wrong> {
        match self {
            Meant::Operator(digits) => asks.joined(operator(digits), at),
            Meant::Choice => asks.chosen(at),
            Meant::Quantifier(kind, variable) => asks.quantified(kind, u64::from(variable), at),
            Meant::Restriction(variable, value) => {
                asks.member(0, at.with(u64::from(variable), value))
            }
        }
    }
}

/// The nodes of the operands.
#[derive(Clone, Copy)]
pub(crate) struct Operands<'a> {
    pub(crate) first: &'a NodeList,
    pub(crate) second: &'a NodeList,
    pub(crate) third: &'a NodeList,
}

impl<'a> Operands<'a> {
    fn of(&self, member: usize) -> &'a NodeList {
        match member {
            0 => self.first,
            1 => self.second,
            _ => self.third,
        }
    }
}

/// A tuple as it is asked for: its first word is the node that is read next for it, and each member has two.
#[derive(Clone, Copy)]
pub(crate) struct Asked<'a> {
    pub(crate) form: Record<'a>,
    pub(crate) operands: Operands<'a>,
}

impl<'a> Asked<'a> {
    fn key(&self) -> u64 {
        self.form.word(0)
    }

    // The two pointers of a member.
    fn pair(&self, member: usize) -> (u64, u64) {
        let at = member.saturating_mul(2).saturating_add(1);
        (self.form.word(at), self.form.word(at.saturating_add(1)))
    }

    // The value of a member: a pointer that stands twice, or the pointers of a node of the key's level.
    fn member(&self, member: usize, at: Assignment) -> Result<bool, Wrong> {
        let (low, high) = self.pair(member);
        let chosen = if at.bit(level_of(self.key())) {
            high
        } else {
            low
        };
        self.operands.of(member).value(chosen, at)
    }

    // The value of an operator over the first two members.
    fn joined(&self, op: Bin, at: Assignment) -> Result<bool, Wrong> {
        joined_of(op, self.member(0, at), self.member(1, at))
    }

    // The value of the second member or of the third one, as the first one has it.
    fn chosen(&self, at: Assignment) -> Result<bool, Wrong> {
        let member = if self.member(0, at)? { 1 } else { 2 };
        self.member(member, at)
    }

    // The value of a quantifier over the first two members, at both values of a variable.
    fn quantified(&self, kind: Quant, variable: u64, at: Assignment) -> Result<bool, Wrong> {
        let op = join_of(kind);
        let low = self.joined(op, at.with(variable, false));
        joined_of(op, low, self.joined(op, at.with(variable, true)))
    }

    // Whether the two pointers are those of a node of the key's level that comes before the key.
    fn was_read(&self, list: &NodeList, low: u64, high: u64) -> bool {
        let key = self.key();
        for node in list.nodes.as_slice() {
            let before = node.uid < key && level_of(node.uid) == level_of(key);
            if before && node.low == low && node.high == high {
                return true;
            }
        }
        false
    }

    // Whether a member is a pointer of its operand from the key on, or a node before it that was read.
    fn stands(&self, member: usize) -> bool {
        let (low, high) = self.pair(member);
        let list = self.operands.of(member);
        if low == high {
            low >= self.key() && list.has(low)
        } else {
            self.was_read(list, low, high)
        }
    }

    // Whether its members stand, those behind the used ones are unused, and one is the key.
    fn has_members(&self, used: usize) -> bool {
        let key = self.key();
        let mut is_key = false;
        for member in 0..3usize {
            let (low, high) = self.pair(member);
            let unused = low == NO && high == NO;
            if !self.stands(member) || member >= used && !unused {
                return false;
            }
            is_key = is_key || low == key && high == key;
        }
        is_key && truth_of(key).is_none()
    }

    /// Whether the operation asks for it. Down to the variable of a quantifier the two members are one.
    pub(crate) fn is_of(&self, meant: Meant) -> bool {
        let split = match meant {
            Meant::Quantifier(_, variable) => level_of(self.key()) > u64::from(variable),
            _ => true,
        };
        let (a, b) = (self.pair(0), self.pair(1));
        self.has_members(meant.members()) && (split || a.0 == b.0 && a.1 == b.1)
    }
}
