//! What has the table of an operator's result, where the roots of two diagrams show it.
ghost use Rattle.std.specs.Prelude.{◌≡◌, ◌≢◌, ◌↔◌, not, IsTrue, IfSome, IfNone};
ghost use Rattle.rec_words.specs.Words.{terminal};
ghost use Rattle.bool_tables.specs.Steps.{op_value};
ghost use Rattle.copied_diagrams.specs.Operands.{MayMeet, value_of, chosen_value, IsResult};

use bool_tables::Bin;
use rec_words::Ptr;

/// One of the two operands of an operator.
#[derive(Clone, Copy, Debug, PartialEq, Eq)]
pub(crate) enum Operand {
    Left,
    Right,
}

/// What is known of the values of two operands: whether they are those of one table, and the roots of their diagrams.
#[derive(Clone, Copy, Debug, PartialEq, Eq)]
pub(crate) struct Known {
    pub(crate) same: bool,
    pub(crate) left: Ptr,
    pub(crate) right: Ptr,
}

/// What an operator's result may be that needs no sweep.
#[derive(Clone, Copy, Debug, PartialEq, Eq)]
pub(crate) enum Choice {
    Constant(bool),
    Copy(Operand),
    Complement(Operand),
}

/// What gives the values that an operator gives, wherever the two values that meet are as is known of them.
pub(crate) fn choice_of(op: Bin, known: &Known) -> Option<Choice>
    ensures result { IfSome result (IsResult op known.now.same known.now.left known.now.right) }
    ensures none { IfNone result ((choice : Choice) → ¬ IsResult op known.now.same known.now.left
        known.now.right choice) }
{
    if is_result(op, known, Choice::Constant(false)) {
        Some(Choice::Constant(false))
    } else if is_result(op, known, Choice::Constant(true)) {
        Some(Choice::Constant(true))
    } else if is_result(op, known, Choice::Copy(Operand::Left)) {
        Some(Choice::Copy(Operand::Left))
    } else if is_result(op, known, Choice::Copy(Operand::Right)) {
        Some(Choice::Copy(Operand::Right))
    } else if is_result(op, known, Choice::Complement(Operand::Left)) {
        Some(Choice::Complement(Operand::Left))
    } else if is_result(op, known, Choice::Complement(Operand::Right)) {
        Some(Choice::Complement(Operand::Right))
    } else {
        None
    }
}

fn is_result(op: Bin, known: &Known, choice: Choice) -> bool
    ensures { IsTrue result ↔ IsResult op known.now.same known.now.left known.now.right choice }
{
    gives(op, known, choice, false, false)
        && gives(op, known, choice, false, true)
        && gives(op, known, choice, true, false)
        && gives(op, known, choice, true, true)
}

// Whether an operator gives the chosen value of these two, if they may meet.
fn gives(op: Bin, known: &Known, choice: Choice, left: bool, right: bool) -> bool
    ensures { IsTrue result ↔ (MayMeet known.now.same known.now.left known.now.right left right →
        op_value op left right ≡ chosen_value choice left right) }
{
    let wanted = match choice {
        Choice::Constant(value) => value,
        Choice::Copy(operand) => value_of(operand, left, right),
        Choice::Complement(operand) => !value_of(operand, left, right),
    };
    !may_meet(known, left, right) || op.value(left, right) == wanted
}

fn value_of(operand: Operand, left: bool, right: bool) -> bool
    ensures { result ≡ value_of operand left right }
{
    match operand {
        Operand::Left => left,
        Operand::Right => right,
    }
}

// Whether these may be the values of the two operands at one place.
fn may_meet(known: &Known, left: bool, right: bool) -> bool
    ensures { IsTrue result ↔ MayMeet known.now.same known.now.left known.now.right left right }
{
    may_be(known.left, left) && may_be(known.right, right) && (!known.same || left == right)
}

// Whether a table whose diagram has that root may have the value somewhere.
fn may_be(root: Ptr, value: bool) -> bool
    ensures { IsTrue result ↔ (root ≢ terminal (not value)) }
{
    root != Ptr::terminal(!value)
}
