/// Which amount of `min : typ : max` is chosen (IEEE 1364-2005, 7.14.1).
#[derive(Clone, Copy, Debug, PartialEq, Eq)]
pub enum Mtm {
    Min,
    Typ,
    Max,
}
