ghost use Rattle.std.specs.Prelude.{ℕ, ◌<◌, ◌≤◌, ◌^◌, slice_index};

/// The delays of an output, in ticks: the first `count` of `d`, each below 2^31
/// (IEEE 1364-2005, 7.14).
#[derive(Clone, Copy, Debug, PartialEq, Eq)]
pub struct Delays {
    pub count: u8,
    pub d: [u32; 3],
    ghost few: { count ≤ 3 },
    ghost short: { (k : ℕ) → slice_index d k < 2 ^ 31 },
}
