//! The first places of the rules.
ghost use Rattle.std.specs.Prelude.{◌≡◌};
ghost use Rattle.gate_rules.specs.Places.{gate_places};

use crate::counts::items_count;
use crate::delays::items_delay;
use crate::drives::items_drive;
use crate::literals::items_literal;
use crate::widths::items_width;
use module_scope::Scope;
use v_tree::{Location, Module};

/// The first place of each rule on the gates, the assignments and the declarations of a module, where
/// it is broken.
#[derive(Clone, Copy, Debug, PartialEq, Eq)]
pub struct GatePlaces {
    /// A terminal of a gate that hasn't one bit, at its first token, or a literal without size in a
    /// concatenation, at the literal.
    pub widths: Option<Location>,
    /// A gate with a wrong number of terminals, at its name, or at its `(` where it has none.
    pub counts: Option<Location>,
    /// More delays than allowed, at the `#`.
    pub delays: Option<Location>,
    /// A drive that isn't right, at its `(`.
    pub drives: Option<Location>,
    /// An output or bidirectional terminal of a gate with a literal, at its first token.
    pub literals: Option<Location>,
}

/// The first place of each rule, given the scope of the module.
pub fn gate_places(scope: &Scope, module: &Module) -> GatePlaces
    ensures { result ≡ gate_places scope.now «module».now }
{
    let items = module.items.as_slice();
    GatePlaces {
        widths: items_width(scope, items),
        counts: items_count(items),
        delays: items_delay(items),
        drives: items_drive(items),
        literals: items_literal(items),
    }
}
