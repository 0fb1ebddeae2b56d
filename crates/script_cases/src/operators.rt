// The operators, by what they make of left 0 and right 0, 0 and 1, 1 and 0, 1 and 1.
use bool_tables::Bin;

pub(crate) const AND: Bin = Bin {
    v00: false,
    v01: false,
    v10: false,
    v11: true,
};

pub(crate) const OR: Bin = Bin {
    v00: false,
    v01: true,
    v10: true,
    v11: true,
};

pub(crate) const XOR: Bin = Bin {
    v00: false,
    v01: true,
    v10: true,
    v11: false,
};

pub(crate) const NAND: Bin = Bin {
    v00: true,
    v01: true,
    v10: true,
    v11: false,
};

pub(crate) const NOR: Bin = Bin {
    v00: true,
    v01: false,
    v10: false,
    v11: false,
};

pub(crate) const XNOR: Bin = Bin {
    v00: true,
    v01: false,
    v10: false,
    v11: true,
};

pub(crate) const IMP: Bin = Bin {
    v00: true,
    v01: true,
    v10: false,
    v11: true,
};

/// Left and not right, which no request asks for by itself.
pub(crate) const LEFT_ALONE: Bin = Bin {
    v00: false,
    v01: false,
    v10: true,
    v11: false,
};
