/// The logic gates, each a fold of its inputs (IEEE 1364-2005, 7.2 and 7.3).
#[derive(Clone, Copy, Debug, PartialEq, Eq)]
pub enum FoldKind {
    And,
    Nand,
    Or,
    Nor,
    Xor,
    Xnor,
    Buf,
    Not,
}

/// The three-state gates (IEEE 1364-2005, 7.4).
#[derive(Clone, Copy, Debug, PartialEq, Eq)]
pub enum EnableKind {
    Bufif0,
    Bufif1,
    Notif0,
    Notif1,
}

/// What a three-state gate gives: `L` is 0 or z, `H` is 1 or z.
#[derive(Clone, Copy, Debug, PartialEq, Eq)]
pub enum EnableOut {
    Zero,
    One,
    X,
    Z,
    L,
    H,
}
