/// A symbol for values (IEEE 1364-2005, table 8-1): `0 1 x ? b`.
#[derive(Clone, Copy, Debug, PartialEq, Eq)]
pub enum Base {
    Zero,
    One,
    X,
    /// `?`: 0, 1 or x.
    Any,
    /// `b`: 0 or 1.
    Both,
}

/// A symbol of a row (IEEE 1364-2005, table 8-1): `0 1 x ? b - r f p n *` and `(vw)`.
#[derive(Clone, Copy, Debug, PartialEq, Eq)]
pub enum Sym {
    Zero,
    One,
    X,
    /// `?`: 0, 1 or x.
    Any,
    /// `b`: 0 or 1.
    Both,
    /// `-`: an output that stays as it is.
    Same,
    /// `r`: from 0 to 1.
    Rise,
    /// `f`: from 1 to 0.
    Fall,
    /// `p`: from 0 to 1, from 0 to x or from x to 1.
    Pos,
    /// `n`: from 1 to 0, from 1 to x or from x to 0.
    Neg,
    /// `*`: any change.
    Change,
    /// `(vw)`: a change from a value of v to another of w.
    Edge(Base, Base),
}
