//! The tick of a netlist text.
ghost use Rattle.std.specs.Prelude.{◌≡◌};
ghost use Rattle.module_directives.specs.Precisions.{finest_precision};

use module_directives::finest_precision;
use v_tree::File;

/// The tick, as a power of ten of a second from -15 to 2: the finest precision of all `` `timescale ``
/// directives (IEEE 1364-2005, 19.8). None comes exactly where the file has no such directive.
pub fn tick_of(file: &File) -> Option<i8>
    ensures { result ≡ finest_precision file.now.directives }
{
    finest_precision(file.directives.as_slice())
}
