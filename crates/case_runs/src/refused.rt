//! Netlists that aren't accepted.

/// Netlists, and what is said of each whatever the script is.
pub const REFUSED_NETLISTS: [(&[u8], &[u8]); 10] = [
    (
        b".model m\n.inputs a\n.outputs y\n.names x y\n1 1\n.names y x\n1 1\n",
        b"netlist: line 4: Cycle\n",
    ),
    (
        b".model m\n.inputs a\n.outputs y\n.names a b y\n11 1\n",
        b"netlist: line 4: Undriven\n",
    ),
    (
        b".model m\n.inputs a\n.outputs q\n.latch a q 0\n",
        b"netlist: line 4: Keyword\n",
    ),
    (
        b".model m\n.inputs a\n.outputs y\n.names a y\n1\n",
        b"netlist: line 5: Row\n",
    ),
    (b"", b"netlist: line 0: NoModel\n"),
    (
        b".model m\n.outputs y\n.names y\n",
        b"netlist: line 0: NoInputs\n",
    ),
    (
        b".model m\n.inputs a\n.outputs y\n.names a y\n1 1\n0 0\n",
        b"netlist: line 6: MixedOutputs\n",
    ),
    (
        b".model m\n.inputs a\n.outputs a\n.names a\n",
        b"netlist: line 4: DrivenTwice\n",
    ),
    (
        b".model m\n.inputs a\n.outputs y\n.names y y\n1 1\n",
        b"netlist: line 4: Cycle\n",
    ),
    (
        b".model m\n.inputs a\n.outputs y\n.names y\n.end\n.end\n",
        b"netlist: line 6: Keyword\n",
    ),
];
