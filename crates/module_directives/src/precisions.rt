ghost use Rattle.std.specs.Prelude.{◌≡◌};
ghost use Rattle.module_directives.specs.Precisions.{coarse_places, coarse_precisions, finer, finest_precision, precision_of, tick_of};
ghost use Rattle.rule_places.specs.Places.{first_place};

use rule_places::earliest;
use v_tree::{Directive, Location};

/// The precision that a directive gives, where it is a `` `timescale ``.
fn precision_of(directive: &Directive) -> Option<i8>
    ensures { result ≡ precision_of directive.now }
{
    match directive {
        Directive::Timescale(timescale) => Some(timescale.precision),
        _ => None,
    }
}

/// The finer of two precisions that may be there.
fn finer(first: Option<i8>, second: Option<i8>) -> Option<i8>
    ensures { result ≡ finer first second }
{
    match (first, second) {
        (Some(one), Some(other)) => Some(if other < one { other } else { one }),
        (None, precision) | (precision, None) => precision,
    }
}

/// The finest precision of all `` `timescale `` directives (IEEE 1364-2005, 19.8), as a power of ten of
/// a second, from -15 to 2. None comes exactly where there is no such directive.
pub fn finest_precision(directives: &[Directive]) -> Option<i8>
    ensures { result ≡ finest_precision directives.now }
{
    let mut finest = None;
    for directive in directives {
        finest = finer(finest, precision_of(directive));
    }
    finest
}

/// The tick of a file with these directives, as a power of ten of a second, from -15 to 2: the finest
/// precision of its `` `timescale `` directives, or 0 where it has none.
pub fn tick_of(directives: &[Directive]) -> i8
    ensures { result ≡ tick_of directives.now }
{
    finest_precision(directives).unwrap_or(0)
}

/// The place of a directive, where it is a `` `timescale `` with a precision greater than its unit.
fn coarse_place(directive: &Directive) -> Option<Location>
    ensures { result ≡ first_place (coarse_places directive.now) }
{
    match directive {
        Directive::Timescale(timescale) if timescale.unit < timescale.precision => {
            Some(timescale.location)
        }
        _ => None,
    }
}

/// The first `` `timescale `` directive whose precision is greater than its unit (IEEE 1364-2005, 19.8),
/// None where there is none.
pub fn coarse_precision(directives: &[Directive]) -> Option<Location>
    ensures { result ≡ first_place (coarse_precisions directives.now) }
{
    let mut first = None;
    for directive in directives {
        first = earliest(first, coarse_place(directive));
    }
    first
}
