// Small netlists, each accepted or refused as the grammar says.
ghost use Rattle.std.specs.Prelude.{◌<◌, length};
ghost use Rattle.blif_reader.specs.Answers.{net_of};

use crate::slashed::text;
use blif_reader::{BlifKind, Netlist, read_netlist};
use std::alloc::{AllocError, Global};

/// Refused texts, with the line and the kind of the first fault. A slash stands for a line feed.
const REFUSED: &[(&str, u32, BlifKind)] = &[
    // The first line with words is the model's.
    ("", 0, BlifKind::NoModel),
    ("/ \t/# only a comment/", 0, BlifKind::NoModel),
    (".inputs a/", 1, BlifKind::NoModel),
    ("/# c/a/.model m/", 3, BlifKind::NoModel),
    (".names/", 1, BlifKind::NoModel),
    (".modelm/", 1, BlifKind::NoModel),
    (".end/.model m/", 1, BlifKind::NoModel),
    ("\\/.names y/", 1, BlifKind::NoModel),
    // Keywords.
    (".model m/.latch a q 0/", 2, BlifKind::Keyword),
    (".model m/.model m/", 2, BlifKind::Keyword),
    (".model m/.inputs a/./", 3, BlifKind::Keyword),
    (".model m/.Inputs a/", 2, BlifKind::Keyword),
    (".model m/.inputs a/.end/.end/", 4, BlifKind::Keyword),
    (".model m/.inputs a/.end/1 1/", 4, BlifKind::Keyword),
    (".model m/.inputs a/.end/.names/", 4, BlifKind::Keyword),
    (".model m/.inputs a/.names y/.1 1/", 4, BlifKind::Keyword),
    // Rows.
    (".model m/1 1/", 2, BlifKind::Row),
    (".model m/.inputs a/1 1/", 3, BlifKind::Row),
    (".model m/.inputs a/.outputs y/1 1/", 4, BlifKind::Row),
    (".model m/.inputs a/.names/", 3, BlifKind::Row),
    (".model m/.inputs a/.names a y/1/", 4, BlifKind::Row),
    (".model m/.inputs a/.names a y/1 1 1/", 4, BlifKind::Row),
    (".model m/.inputs a/.names a y/11 1/", 4, BlifKind::Row),
    (".model m/.inputs a b/.names a b y/1 1/", 4, BlifKind::Row),
    (".model m/.inputs a/.names a y/2 1/", 4, BlifKind::Row),
    (".model m/.inputs a/.names a y/1 2/", 4, BlifKind::Row),
    (".model m/.inputs a/.names a y/1 -/", 4, BlifKind::Row),
    (".model m/.inputs a/.names a y/1 01/", 4, BlifKind::Row),
    (".model m/.inputs a/.names y/1 1/", 4, BlifKind::Row),
    (".model m/.inputs a/.names y/-/", 4, BlifKind::Row),
    (".model m/.inputs a/.names y/01/", 4, BlifKind::Row),
    (
        ".model m/.inputs a/.names a y/1 1/.outputs y/0 1/",
        6,
        BlifKind::Row,
    ),
    (".model m/.inputs a/.names a y/1 1 \\/1/", 4, BlifKind::Row),
    // Outputs of one block.
    (
        ".model m/.inputs a/.names a y/1 1/0 0/",
        5,
        BlifKind::MixedOutputs,
    ),
    (
        ".model m/.inputs a/.names a y/1 0/0 0/- 1/",
        6,
        BlifKind::MixedOutputs,
    ),
    (".model m/.names y/1/0/", 4, BlifKind::MixedOutputs),
    (
        ".model m/.inputs a/.outputs y/.names a y/1 1/0 0/",
        6,
        BlifKind::MixedOutputs,
    ),
    // The first line with a fault counts, whatever its kind.
    (".model m/x/.latch/", 2, BlifKind::Row),
    (".model m/.latch/x/", 2, BlifKind::Keyword),
    (".model m/.names q y/.latch/", 3, BlifKind::Keyword),
    // Inputs.
    (".model m/", 0, BlifKind::NoInputs),
    (".model m/.outputs y/.names y/", 0, BlifKind::NoInputs),
    (".model m/.names y/.names y/", 0, BlifKind::NoInputs),
    (".model m/.names y y/1 1/", 0, BlifKind::NoInputs),
    // Drivers.
    (".model m/.inputs a a/", 2, BlifKind::DrivenTwice),
    (".model m/.inputs a/.inputs b a/", 3, BlifKind::DrivenTwice),
    (
        ".model m/.inputs a/.outputs a/.names a/",
        4,
        BlifKind::DrivenTwice,
    ),
    (".model m/.names a/.inputs b a/", 3, BlifKind::DrivenTwice),
    (
        ".model m/.inputs a/.names y/.names y/",
        4,
        BlifKind::DrivenTwice,
    ),
    (
        ".model m/.inputs a/.names y/.names z/.names z/.names y/",
        5,
        BlifKind::DrivenTwice,
    ),
    (
        ".model m/.inputs a/.names q y/.names y/",
        4,
        BlifKind::DrivenTwice,
    ),
    (".model m/.inputs a b \\/a/", 2, BlifKind::DrivenTwice),
    // Uses.
    (
        ".model m/.inputs a/.outputs y/.names a b y/11 1/",
        4,
        BlifKind::Undriven,
    ),
    (".model m/.inputs a/.outputs y/", 3, BlifKind::Undriven),
    (
        ".model m/.outputs y/.inputs a/.names q z/1 1/",
        2,
        BlifKind::Undriven,
    ),
    (
        ".model m/.inputs a/.names q y/.names y y/",
        4,
        BlifKind::DrivenTwice,
    ),
    (
        ".model m/.inputs a/.names q y/.names z z/",
        3,
        BlifKind::Undriven,
    ),
    (".model m/.inputs a/.outputs a \\/y/", 3, BlifKind::Undriven),
    // Cycles.
    (
        ".model m/.inputs a/.outputs y/.names x y/1 1/.names y x/1 1/",
        4,
        BlifKind::Cycle,
    ),
    (
        ".model m/.inputs a/.outputs y/.names y y/1 1/",
        4,
        BlifKind::Cycle,
    ),
    (
        ".model m/.inputs a/.names x y/.names x z/.names w x/.names x w/",
        5,
        BlifKind::Cycle,
    ),
    (
        ".model m/.inputs a/.names p y/.names q p/.names x q/.names x x/.names a r/",
        6,
        BlifKind::Cycle,
    ),
];

/// Accepted texts, with the number of their signals.
const ACCEPTED: &[(&str, u32)] = &[
    (".model/.inputs/", 0),
    (".model m with words/.inputs/.end of it/", 0),
    ("# first/.model m/.inputs a b/", 2),
    ("\r/\t.model\tm\r/ .inputs\ta \r/", 1),
    (
        ".model m/.inputs a/.inputs b c/.outputs a/.outputs b a a/",
        3,
    ),
    (".model m/.inputs a\\/b/.outputs b/", 2),
    (".model m/.inputs a\\ \t\r/b\\", 2),
    (
        ".model m/.inputs a \\ # more/b/.outputs y/.names a b y/11 1/",
        3,
    ),
    (".model m/.inputs a # no more \\/.outputs a/", 1),
    (".model m/.inputs a \\\\/b/", 3),
    (".model m/.inputs a \\/# nothing/.outputs a/", 1),
    (".model \\/.names/.inputs a/", 1),
    (".model m/.inputs a/.end", 1),
    (".model m/.inputs a/.end/ # nothing/", 1),
    (".model m/.outputs y/.names a y/1 1/.inputs a/", 2),
    (
        ".model m/.inputs a/.names z y/1 1/.names a z/0 0/.outputs y/",
        3,
    ),
    (".model m/.inputs a/.names a a a y/1-0 1/", 2),
    (
        ".model m/.inputs/.names $false/.names $true/1/.names $undef/",
        3,
    ),
    (".model m/.inputs/.names o/ 1/.names z/ 0/", 2),
    (".model m/.inputs a/.names a y/.names a z/- 1/- 1/", 3),
    (".model m/.inputs a/.names a y/# between//1 1/", 2),
    (".model m/.inputs a/.names a y/1 \\/1/", 2),
];

/// Whether the first fault of a text has this line and this kind.
fn refuses(alloc: Global, bytes: &[u8], line: u32, kind: BlifKind) -> bool {
    match read_netlist(alloc, bytes) {
        Ok(_) => false,
        Err(fault) => fault.line == line && fault.kind == kind,
    }
}

#[test]
fn refuses_each_fault(rt: HostRuntime) -> Result<(), AllocError> {
    for (slashed, line, kind) in REFUSED {
        let bytes = text(rt.alloc(), slashed)?;
        assert!(rt;
            refuses(rt.alloc(), bytes.as_slice(), *line, *kind),
            "{slashed}"
        );
    }
    Ok(())
}

/// Whether a text is accepted with so many signals.
fn accepts(alloc: Global, bytes: &[u8], signals: u32) -> bool {
    match read_netlist(alloc, bytes) {
        Ok(net) => net.signal_count() == signals,
        Err(_) => false,
    }
}

#[test]
fn accepts_each_form(rt: HostRuntime) -> Result<(), AllocError> {
    for (slashed, signals) in ACCEPTED {
        let bytes = text(rt.alloc(), slashed)?;
        assert!(rt;
            accepts(rt.alloc(), bytes.as_slice(), *signals),
            "{slashed}"
        );
    }
    Ok(())
}

fn last_digit(number: u32) -> u8 {
    b'0' + (number % 10) as u8
}

/// A model of 65,536 inputs, whose names are their numbers.
fn too_many_inputs(alloc: Global) -> Result<Vec<u8>, AllocError> {
    let mut bytes = text(alloc, ".model m/.inputs")?;
    for number in 0..65536u32 {
        bytes.extend_from_slice(&[
            b' ',
            last_digit(number / 10000),
            last_digit(number / 1000),
            last_digit(number / 100),
            last_digit(number / 10),
            last_digit(number),
        ])?;
    }
    Ok(bytes)
}

#[test]
fn refuses_what_is_too_large(rt: HostRuntime) -> Result<(), AllocError> {
    let many = too_many_inputs(rt.alloc())?;
    let full = vec![in rt.alloc(); b'\n'; 4194304]?;
    let more = vec![in rt.alloc(); b'\n'; 4194305]?;
    assert!(rt;
        refuses(rt.alloc(), many.as_slice(), 0, BlifKind::TooManyVariables)
            && refuses(rt.alloc(), full.as_slice(), 0, BlifKind::NoModel)
            && refuses(rt.alloc(), more.as_slice(), 0, BlifKind::TooLong)
    );
    Ok(())
}

/// Whether a half adder has its parts. Its signals are a, b, s, c, t.
fn gives_each_part(alloc: Global, bytes: &[u8]) -> Result<bool, AllocError> {
    let Ok(net) = read_netlist(alloc, bytes) else {
        return Ok(false);
    };
    if net.signal_count() != 5 {
        return Ok(false);
    }
    let visits = net.visits(alloc, &[2])?;
    Ok(visits.as_slice() == [0, 1, 4, 3, 2].as_slice() && has_names(&net) && has_blocks(&net))
}

/// Whether its names and outputs are those of a half adder.
fn has_names(net: &Netlist) -> bool
    requires { 3 < length (net_of net.now).names }
{
    net.signal(b"t".as_slice()) == Some(4)
        && net.signal(b"half".as_slice()).is_none()
        && net.name(3) == b"c".as_slice()
        && net.outputs() == [2, 3].as_slice()
}

/// Whether its blocks are.
fn has_blocks(net: &Netlist) -> bool {
    net.input_count() == 2
        && net.signal_count() == 5
        && net.row_count(4) == 2
        && net.row(4, 1) == b"-1".as_slice()
        && net.block_inputs(2) == [4, 3].as_slice()
        && !net.row_output(2)
        && net.row_output(4)
}

#[test]
fn gives_each_part_of_a_half_adder(rt: HostRuntime) -> Result<(), AllocError> {
    let bytes = text(
        rt.alloc(),
        ".model half # adder/.inputs a b/.outputs s c/.names t c s/10 0/.names a b c/11 1/.names a b t/1- 1/-1 1/.end/",
    )?;
    assert!(rt; gives_each_part(rt.alloc(), bytes.as_slice())?);
    Ok(())
}
