ghost use Rattle.std.specs.Prelude.{◌≡◌, ◌≤◌, ◌++◌};
ghost use Rattle.level_range.specs.Signal.{mnemonic as letters_of, strengths as strengths_of, signal_text};

use crate::range::Range;

/// The two letters of a strength level (IEEE 1364-2005, 17.1.1.5).
fn mnemonic(level: u8) -> [u8; 2]
    ensures { result ≡ letters_of level }
{
    match level {
        7 => *b"Su",
        6 => *b"St",
        5 => *b"Pu",
        4 => *b"La",
        3 => *b"We",
        2 => *b"Me",
        1 => *b"Sm",
        _ => *b"Hi",
    }
}

/// One strength by its letters, or two by their digits.
fn strengths(a: u8, b: u8) -> [u8; 2]
    requires a { a ≤ 7 }
    requires b { b ≤ 7 }
    ensures { result ≡ strengths_of a b }
{
    if a == b {
        mnemonic(a)
    } else {
        [b'0' + a, b'0' + b]
    }
}

/// The three characters that `%v` prints (IEEE 1364-2005, 17.1.1.5).
///
/// How a signal with a range prints is this project's own.
pub fn percent_v(a: Range) -> [u8; 3]
    ensures { result ≡ signal_text a }
{
    let lo = a.lo.unsigned_abs();
    let hi = a.hi.unsigned_abs();
    let (pair, last) = if a.hi < 0 {
        (strengths(lo, hi), b'0')
    } else if a.lo > 0 {
        (strengths(hi, lo), b'1')
    } else if a.lo < 0 && a.hi > 0 {
        (strengths(lo, hi), b'X')
    } else if a.lo < 0 {
        (mnemonic(lo), b'L')
    } else if a.hi > 0 {
        (mnemonic(hi), b'H')
    } else {
        (*b"Hi", b'Z')
    };
    [pair[0], pair[1], last]
}
