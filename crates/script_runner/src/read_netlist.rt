//! A netlist with its text.

use blif_reader::Netlist;

/// A netlist, and the text that spells it.
#[derive(Drop)]
pub(crate) struct ReadNetlist {
    pub(crate) text: Vec<u8>,
    pub(crate) net: Netlist,
}
