// Scripts that several tables of cases run, and what their runs say in an empty folder.

/// A script of three requests.
pub(crate) const THREE_VARIABLES: &[u8] = b"vars a b c\nvar f a\nvar g b\nvar h c\n";

pub(crate) const THREE_TEXT: &[u8] = b"start 3\n2: nodes 1\n3: nodes 1\n4: nodes 1\ndone\n";

/// A script that drops a diagram.
pub(crate) const DROPPING: &[u8] = b"vars a b\nconst z 0\nvar f b\nsize f\ndrop z\n";

pub(crate) const DROPPING_TEXT: &[u8] =
    b"start 4\n2: nodes 0\n3: nodes 1\n4: nodes 1\n5: dropped\ndone\n";

/// An operator on two variables.
pub(crate) const AND_SCRIPT: &[u8] = b"vars a b\nvar f a\nvar g b\nand h f g\n";

pub(crate) const AND_TEXT: &[u8] = b"start 3\n2: nodes 1\n3: nodes 1\n4: nodes 2\ndone\n";

/// The same, and a drop of an operand.
pub(crate) const AND_DROP_SCRIPT: &[u8] = b"vars a b\nvar f a\nvar g b\nand h f g\ndrop f\n";

pub(crate) const AND_DROP_TEXT: &[u8] =
    b"start 4\n2: nodes 1\n3: nodes 1\n4: nodes 2\n5: dropped\ndone\n";

/// Whether a conjunction implies an operand, and the other way round.
pub(crate) const AND_LEQ_SCRIPT: &[u8] =
    b"vars a b\nvar f a\nvar g b\nand h f g\nleq h f\nleq f h\n";

pub(crate) const AND_LEQ_TEXT: &[u8] =
    b"start 5\n2: nodes 1\n3: nodes 1\n4: nodes 2\n5: yes\n6: no\ndone\n";

/// A constant by an operator and by itself, and whether they are the same.
pub(crate) const XOR_SAME_SCRIPT: &[u8] =
    b"vars a b\nvar f a\nvar g b\nxor h f g\nxor z h h\nconst y 0\nsame z y\n";

pub(crate) const XOR_SAME_TEXT: &[u8] =
    b"start 6\n2: nodes 1\n3: nodes 1\n4: nodes 3\n5: nodes 0\n6: nodes 0\n7: yes\ndone\n";

/// Both restrictions of a variable, which differ and have as many nodes, and a value.
pub(crate) const RESTRICT_EVAL_SCRIPT: &[u8] =
    b"vars a b\nvar f a\nvar g b\nxor h f g\nrestrict p h a 0\nrestrict q h a 1\n\
              same p q\neval h 10\n";

pub(crate) const RESTRICT_EVAL_TEXT: &[u8] =
    b"start 7\n2: nodes 1\n3: nodes 1\n4: nodes 3\n5: nodes 1\n6: nodes 1\n7: no\n8: 1\n\
            done\n";
