//! The words with which the lines of a script begin.

ghost use Rattle.std.specs.Prelude.{◌≡◌};
ghost use Rattle.script_reader.specs.Keywords.{op, operator_of, diagram_of, spelled, is_known, keyword_of, gives_name};
ghost use Rattle.script_reader.specs.Views.{texts};

use crate::fault::ScriptKind;
use bool_tables::{Bin, Quant};

/// What the first word of a line asks for.
#[derive(Clone, Copy, Debug, PartialEq, Eq)]
pub(crate) enum Keyword {
    Vars,
    Inputs,
    Const,
    Var,
    Not,
    Pair(Bin),
    Ite,
    Quantify(Quant),
    Restrict,
    Net,
    Drop,
    Same,
    Leq,
    Eval,
    Size,
}

impl Keyword {
    /// Whether a line that begins so gives a name to a diagram, its second word.
    pub(crate) fn gives_name(self) -> bool
        ensures { result ≡ gives_name self }
    {
        match self {
            Keyword::Const
            | Keyword::Var
            | Keyword::Not
            | Keyword::Pair(_)
            | Keyword::Ite
            | Keyword::Quantify(_)
            | Keyword::Restrict => true,
            Keyword::Vars
            | Keyword::Inputs
            | Keyword::Net
            | Keyword::Drop
            | Keyword::Same
            | Keyword::Leq
            | Keyword::Eval
            | Keyword::Size => false,
        }
    }
}

/// The operator with these values, the left operand's first.
fn bin(v00: bool, v01: bool, v10: bool, v11: bool) -> Bin
    ensures { result ≡ op v00 v01 v10 v11 }
{
    Bin { v00, v01, v10, v11 }
}

/// The operator that a word names.
fn operator(word: &[u8]) -> Option<Bin>
    ensures { result ≡ operator_of word.now }
{
    if word == b"and".as_slice() {
        Some(bin(false, false, false, true))
    } else if word == b"or".as_slice() {
        Some(bin(false, true, true, true))
    } else if word == b"xor".as_slice() {
        Some(bin(false, true, true, false))
    } else if word == b"nand".as_slice() {
        Some(bin(true, true, true, false))
    } else if word == b"nor".as_slice() {
        Some(bin(true, false, false, false))
    } else if word == b"xnor".as_slice() {
        Some(bin(true, false, false, true))
    } else if word == b"imp".as_slice() {
        Some(bin(true, true, false, true))
    } else {
        None
    }
}

/// What a word that names a diagram's step asks for.
fn diagram(word: &[u8]) -> Option<Keyword>
    ensures { result ≡ diagram_of word.now }
{
    if word == b"const".as_slice() {
        Some(Keyword::Const)
    } else if word == b"var".as_slice() {
        Some(Keyword::Var)
    } else if word == b"not".as_slice() {
        Some(Keyword::Not)
    } else if word == b"ite".as_slice() {
        Some(Keyword::Ite)
    } else if word == b"exists".as_slice() {
        Some(Keyword::Quantify(Quant::Exists))
    } else if word == b"forall".as_slice() {
        Some(Keyword::Quantify(Quant::Forall))
    } else if word == b"restrict".as_slice() {
        Some(Keyword::Restrict)
    } else {
        operator(word).map(Keyword::Pair)
    }
}

/// What a word asks for, whether it is known or not.
fn spelled(word: &[u8]) -> Option<Keyword>
    ensures { result ≡ spelled word.now }
{
    if word == b"vars".as_slice() {
        Some(Keyword::Vars)
    } else if word == b"inputs".as_slice() {
        Some(Keyword::Inputs)
    } else if word == b"net".as_slice() {
        Some(Keyword::Net)
    } else if word == b"drop".as_slice() {
        Some(Keyword::Drop)
    } else if word == b"same".as_slice() {
        Some(Keyword::Same)
    } else if word == b"leq".as_slice() {
        Some(Keyword::Leq)
    } else if word == b"eval".as_slice() {
        Some(Keyword::Eval)
    } else if word == b"size".as_slice() {
        Some(Keyword::Size)
    } else {
        diagram(word)
    }
}

/// Whether a word is one of the known words.
#[tactic(auto, using(crate::proofs::Tests::any_map))]
fn is_known(known: &[&[u8]], word: &[u8]) -> bool
    ensures { result ≡ is_known (texts known.now) word.now }
{
    known.contains(&word)
}

/// What a word asks for, where it is one of the known words.
pub(crate) fn read_keyword(known: &[&[u8]], word: &[u8]) -> Result<Keyword, ScriptKind>
    ensures { result ≡ keyword_of (texts known.now) word.now }
{
    if !is_known(known, word) {
        return Err(ScriptKind::Word);
    }
    spelled(word).ok_or(ScriptKind::Word)
}
