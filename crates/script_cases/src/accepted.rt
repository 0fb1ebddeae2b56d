// Scripts that are accepted, with their whole plans.
use crate::operators::{AND, IMP, NAND, NOR, OR, XNOR, XOR};
use crate::whole::{Made, Said, is_plan, read_whole};
use bool_tables::{Quant, Step};

/// Scripts of each request, with the number of variables, the steps and the said lines of their plans.
const REQUESTS: &[(&str, u32, &[Made], &[Said])] = &[
    // Without steps.
    ("", 0, &[], &[]),
    ("vars", 0, &[], &[]),
    ("vars a b", 2, &[], &[]),
    ("\n# only a comment\n \t\r", 0, &[], &[]),
    // Each request.
    (
        "vars a b c\nvar f b\n",
        3,
        &[(Step::Var { level: 1 }, 15, 1)],
        &[(2, 0, 0)],
    ),
    (
        "const z 0",
        0,
        &[(Step::Const { value: false }, 6, 1)],
        &[(1, 0, 0)],
    ),
    (
        "const a 0\nnot b a",
        0,
        &[
            (Step::Const { value: false }, 6, 1),
            (
                Step::Pair {
                    op: NAND,
                    left: 0,
                    right: 0,
                },
                14,
                1,
            ),
        ],
        &[(1, 0, 0), (2, 1, 1)],
    ),
    (
        "const a 0\nconst b 1\nand c a b\nor d a b\nxor e a b\nnand f a b\nnor g a b\nxnor h a b\n\
         imp i a b",
        0,
        &[
            (Step::Const { value: false }, 6, 1),
            (Step::Const { value: true }, 16, 1),
            (
                Step::Pair {
                    op: AND,
                    left: 0,
                    right: 1,
                },
                24,
                1,
            ),
            (
                Step::Pair {
                    op: OR,
                    left: 0,
                    right: 1,
                },
                33,
                1,
            ),
            (
                Step::Pair {
                    op: XOR,
                    left: 0,
                    right: 1,
                },
                43,
                1,
            ),
            (
                Step::Pair {
                    op: NAND,
                    left: 0,
                    right: 1,
                },
                54,
                1,
            ),
            (
                Step::Pair {
                    op: NOR,
                    left: 0,
                    right: 1,
                },
                64,
                1,
            ),
            (
                Step::Pair {
                    op: XNOR,
                    left: 0,
                    right: 1,
                },
                75,
                1,
            ),
            (
                Step::Pair {
                    op: IMP,
                    left: 0,
                    right: 1,
                },
                85,
                1,
            ),
        ],
        &[
            (1, 0, 0),
            (2, 1, 1),
            (3, 2, 2),
            (4, 3, 3),
            (5, 4, 4),
            (6, 5, 5),
            (7, 6, 6),
            (8, 7, 7),
            (9, 8, 8),
        ],
    ),
    (
        "const a 0\nconst b 1\nconst c 0\nite d a b c",
        0,
        &[
            (Step::Const { value: false }, 6, 1),
            (Step::Const { value: true }, 16, 1),
            (Step::Const { value: false }, 26, 1),
            (
                Step::Ite {
                    test: 0,
                    yes: 1,
                    no: 2,
                },
                34,
                1,
            ),
        ],
        &[(1, 0, 0), (2, 1, 1), (3, 2, 2), (4, 3, 3)],
    ),
    (
        "vars x y\nvar f x\nexists g f y\nforall h g x\nrestrict i h y 1\nrestrict j i x 0",
        2,
        &[
            (Step::Var { level: 0 }, 13, 1),
            (
                Step::Quantify {
                    kind: Quant::Exists,
                    of: 0,
                    level: 1,
                },
                24,
                1,
            ),
            (
                Step::Quantify {
                    kind: Quant::Forall,
                    of: 1,
                    level: 0,
                },
                37,
                1,
            ),
            (
                Step::Restrict {
                    of: 2,
                    level: 1,
                    value: true,
                },
                52,
                1,
            ),
            (
                Step::Restrict {
                    of: 3,
                    level: 0,
                    value: false,
                },
                69,
                1,
            ),
        ],
        &[(2, 0, 0), (3, 1, 1), (4, 2, 2), (5, 3, 3), (6, 4, 4)],
    ),
    (
        "const a 0\nconst b 1\nsame a b\nleq b a\nsize b\ndrop a\nsize b",
        0,
        &[
            (Step::Const { value: false }, 6, 1),
            (Step::Const { value: true }, 16, 1),
            (Step::Same { left: 0, right: 1 }, 0, 0),
            (Step::Leq { left: 1, right: 0 }, 0, 0),
            (Step::Size { of: 1 }, 0, 0),
            (Step::Drop { gone: 0 }, 0, 0),
            (Step::Size { of: 1 }, 0, 0),
        ],
        &[
            (1, 0, 0),
            (2, 1, 1),
            (3, 2, 2),
            (4, 3, 3),
            (5, 4, 4),
            (6, 5, 5),
            (7, 6, 6),
        ],
    ),
    (
        "vars a b c\nvar f c\neval f 011",
        3,
        &[
            (Step::Var { level: 2 }, 15, 1),
            (Step::Eval { of: 0, at: 26 }, 0, 0),
        ],
        &[(2, 0, 0), (3, 1, 1)],
    ),
    (
        "vars\nconst t 1\neval t\n",
        0,
        &[
            (Step::Const { value: true }, 11, 1),
            (Step::Eval { of: 0, at: 0 }, 0, 0),
        ],
        &[(2, 0, 0), (3, 1, 1)],
    ),
];

#[test]
fn plans_each_request(rt: HostRuntime) {
    for (text, n, made, said) in REQUESTS {
        let answer = read_whole(rt.alloc(), text.as_bytes());
        assert!(rt; is_plan(answer, *n, made, said), "{text:?}");
    }
}

/// Scripts of all forms of names, levels and blanks, likewise.
const FORMS: &[(&str, u32, &[Made], &[Said])] = &[
    // Steps are numbered with those that make no diagram, and a diagram may be named twice on a line.
    (
        "const a 0\ndrop a\nconst b 1\nsize b",
        0,
        &[
            (Step::Const { value: false }, 6, 1),
            (Step::Drop { gone: 0 }, 0, 0),
            (Step::Const { value: true }, 23, 1),
            (Step::Size { of: 2 }, 0, 0),
        ],
        &[(1, 0, 0), (2, 1, 1), (3, 2, 2), (4, 3, 3)],
    ),
    (
        "const a 1\nxor b a a\nsame b b",
        0,
        &[
            (Step::Const { value: true }, 6, 1),
            (
                Step::Pair {
                    op: XOR,
                    left: 0,
                    right: 0,
                },
                14,
                1,
            ),
            (Step::Same { left: 1, right: 1 }, 0, 0),
        ],
        &[(1, 0, 0), (2, 1, 1), (3, 2, 2)],
    ),
    // Levels go by the order of the variables.
    (
        "# first\n \t\n\nvars b a\nvar f a\nvar g b",
        2,
        &[
            (Step::Var { level: 1 }, 25, 1),
            (Step::Var { level: 0 }, 33, 1),
        ],
        &[(5, 0, 0), (6, 1, 1)],
    ),
    // Names of variables and of diagrams are two sets of names, and may be those of requests, or digits.
    (
        "vars a\nvar a a\nnot b a",
        1,
        &[
            (Step::Var { level: 0 }, 11, 1),
            (
                Step::Pair {
                    op: NAND,
                    left: 0,
                    right: 0,
                },
                19,
                1,
            ),
        ],
        &[(2, 0, 0), (3, 1, 1)],
    ),
    (
        "vars const\nvar var const\nnot vars var",
        1,
        &[
            (Step::Var { level: 0 }, 15, 3),
            (
                Step::Pair {
                    op: NAND,
                    left: 0,
                    right: 0,
                },
                29,
                4,
            ),
        ],
        &[(2, 0, 0), (3, 1, 1)],
    ),
    (
        "vars 0 1\nvar 1 1\nconst 0 0\nrestrict r 1 0 1",
        2,
        &[
            (Step::Var { level: 1 }, 13, 1),
            (Step::Const { value: false }, 23, 1),
            (
                Step::Restrict {
                    of: 0,
                    level: 0,
                    value: true,
                },
                36,
                1,
            ),
        ],
        &[(2, 0, 0), (3, 1, 1), (4, 2, 2)],
    ),
    (
        "const nnnnnnnnnnnnnnnnnnnnnnnnnnnnnnnnnnnnnnnnnnnnnnnnnnnnnnnnnnnnnnn 0",
        0,
        &[(Step::Const { value: false }, 6, 63)],
        &[(1, 0, 0)],
    ),
    // Comments, blanks, tabs and carriage returns.
    (
        "vars a b # order\r\n\r\n\tvar f a\r\n",
        2,
        &[(Step::Var { level: 0 }, 25, 1)],
        &[(3, 0, 0)],
    ),
    (
        "\tconst\t\ta \r1\t\r\n",
        0,
        &[(Step::Const { value: true }, 8, 1)],
        &[(1, 0, 0)],
    ),
    (
        "const a 0#b\nsize a # size b",
        0,
        &[
            (Step::Const { value: false }, 6, 1),
            (Step::Size { of: 0 }, 0, 0),
        ],
        &[(1, 0, 0), (2, 1, 1)],
    ),
    (
        "#\nconst a 0\n#",
        0,
        &[(Step::Const { value: false }, 8, 1)],
        &[(2, 0, 0)],
    ),
];

#[test]
fn plans_names_levels_and_blanks(rt: HostRuntime) {
    for (text, n, made, said) in FORMS {
        let answer = read_whole(rt.alloc(), text.as_bytes());
        assert!(rt; is_plan(answer, *n, made, said), "{text:?}");
    }
}

/// Whole scripts, likewise.
const WHOLE: &[(&str, u32, &[Made], &[Said])] = &[
    (
        "vars a b\nvar f a\nvar g b\nand h f g\ndrop f",
        2,
        &[
            (Step::Var { level: 0 }, 13, 1),
            (Step::Var { level: 1 }, 21, 1),
            (
                Step::Pair {
                    op: AND,
                    left: 0,
                    right: 1,
                },
                29,
                1,
            ),
            (Step::Drop { gone: 0 }, 0, 0),
        ],
        &[(2, 0, 0), (3, 1, 1), (4, 2, 2), (5, 3, 3)],
    ),
    (
        "vars a b\nvar f a\nvar g b\nand h f g",
        2,
        &[
            (Step::Var { level: 0 }, 13, 1),
            (Step::Var { level: 1 }, 21, 1),
            (
                Step::Pair {
                    op: AND,
                    left: 0,
                    right: 1,
                },
                29,
                1,
            ),
        ],
        &[(2, 0, 0), (3, 1, 1), (4, 2, 2)],
    ),
    (
        "vars a b c\nvar x a\nvar y b\nvar z c\nand w y z\nite f x w z\nexists e f a\n\
         forall d f a\nsame e z\nsame d w",
        3,
        &[
            (Step::Var { level: 0 }, 15, 1),
            (Step::Var { level: 1 }, 23, 1),
            (Step::Var { level: 2 }, 31, 1),
            (
                Step::Pair {
                    op: AND,
                    left: 1,
                    right: 2,
                },
                39,
                1,
            ),
            (
                Step::Ite {
                    test: 0,
                    yes: 3,
                    no: 2,
                },
                49,
                1,
            ),
            (
                Step::Quantify {
                    kind: Quant::Exists,
                    of: 4,
                    level: 0,
                },
                64,
                1,
            ),
            (
                Step::Quantify {
                    kind: Quant::Forall,
                    of: 4,
                    level: 0,
                },
                77,
                1,
            ),
            (Step::Same { left: 5, right: 2 }, 0, 0),
            (Step::Same { left: 6, right: 3 }, 0, 0),
        ],
        &[
            (2, 0, 0),
            (3, 1, 1),
            (4, 2, 2),
            (5, 3, 3),
            (6, 4, 4),
            (7, 5, 5),
            (8, 6, 6),
            (9, 7, 7),
            (10, 8, 8),
        ],
    ),
    (
        "vars a b\nvar f a\nvar g b\nxor h f g\nrestrict p h a 0\nrestrict q h a 1\nsame p q\neval h 10",
        2,
        &[
            (Step::Var { level: 0 }, 13, 1),
            (Step::Var { level: 1 }, 21, 1),
            (
                Step::Pair {
                    op: XOR,
                    left: 0,
                    right: 1,
                },
                29,
                1,
            ),
            (
                Step::Restrict {
                    of: 2,
                    level: 0,
                    value: false,
                },
                44,
                1,
            ),
            (
                Step::Restrict {
                    of: 2,
                    level: 0,
                    value: true,
                },
                61,
                1,
            ),
            (Step::Same { left: 3, right: 4 }, 0, 0),
            (Step::Eval { of: 2, at: 85 }, 0, 0),
        ],
        &[
            (2, 0, 0),
            (3, 1, 1),
            (4, 2, 2),
            (5, 3, 3),
            (6, 4, 4),
            (7, 5, 5),
            (8, 6, 6),
        ],
    ),
    (
        "vars x1 y1\nconst p0 1\nvar a1 x1\nvar b1 y1\nxnor e1 a1 b1\nand p1 p0 e1\nconst r0 1\n\
         and r1 r0 e1\nsame p1 r1\nsize p1\n",
        2,
        &[
            (Step::Const { value: true }, 17, 2),
            (Step::Var { level: 0 }, 26, 2),
            (Step::Var { level: 1 }, 36, 2),
            (
                Step::Pair {
                    op: XNOR,
                    left: 1,
                    right: 2,
                },
                47,
                2,
            ),
            (
                Step::Pair {
                    op: AND,
                    left: 0,
                    right: 3,
                },
                60,
                2,
            ),
            (Step::Const { value: true }, 75, 2),
            (
                Step::Pair {
                    op: AND,
                    left: 5,
                    right: 3,
                },
                84,
                2,
            ),
            (Step::Same { left: 4, right: 6 }, 0, 0),
            (Step::Size { of: 4 }, 0, 0),
        ],
        &[
            (2, 0, 0),
            (3, 1, 1),
            (4, 2, 2),
            (5, 3, 3),
            (6, 4, 4),
            (7, 5, 5),
            (8, 6, 6),
            (9, 7, 7),
            (10, 8, 8),
        ],
    ),
];

#[test]
fn plans_whole_scripts(rt: HostRuntime) {
    for (text, n, made, said) in WHOLE {
        let answer = read_whole(rt.alloc(), text.as_bytes());
        assert!(rt; is_plan(answer, *n, made, said), "{text:?}");
    }
}
