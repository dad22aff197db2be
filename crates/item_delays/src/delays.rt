//! The delays of the items of a file's modules.
ghost use Rattle.std.specs.Prelude.{◌≡◌, ◌||◌, ◌&&◌, [], length, map, IfOk};
ghost use Rattle.std.specs.List.{items_where_true, list_any};
ghost use Rattle.module_directives.specs.InForce.{settings_at};
ghost use Rattle.module_directives.specs.Precisions.{coarse_precisions};
ghost use Rattle.netlist_meaning.specs.Delays.{delays_in, has_long};

use crate::items::module_delays;
use crate::scales::scale_under;
use chosen_delays::{Mtm, no_delays};
use flattening::ItemDelays;
use module_directives::{Settings, tick_of};
use sqlite_items::Items;
use std::alloc::{AllocError, Global};
use v_tree::File;

/// The delays of a file's items in ticks, by the indexes of modules and of their items, and whether
/// one of a module that is reached is past the greatest.
#[derive(Debug, Drop)]
pub struct ChosenDelays {
    pub delays: ItemDelays,
    pub is_long: bool,
}

/// Whether a module that is reached has a delay past the greatest, after one more module.
fn with_module(is_long: bool, is_reached: bool, has_long: bool) -> bool
    ensures { result ≡ (is_long || (is_reached && has_long)) }
{
    is_long || is_reached && has_long
}

/// The delays of a file's items in ticks (IEEE 1364-2005, 7.14 and 19.8), given what is in force at
/// each module, which modules are reached, and whether the least, typical or greatest ones count.
/// An item one of whose delays is 2^31 ticks or more has none, and the answer says whether there is
/// such an item in a module that is reached. No precision may be greater than its unit. An error
/// comes only for want of memory.
pub fn item_delays(
    alloc: Global,
    file: &File,
    settings: &[Settings],
    reached: &[bool],
    choice: Mtm,
) -> Result<ChosenDelays, AllocError>
    requires settings { settings.now
        ≡ map (λ m. settings_at file.now.directives m.location) file.now.modules }
    requires precisions { coarse_precisions file.now.directives ≡ [] }
    requires reached { length reached.now ≡ length file.now.modules }
    ensures delays { IfOk result (λ chosen. chosen.delays ≡ delays_in choice file.now) }
    ensures is_long { IfOk result (λ chosen. chosen.is_long
        ≡ list_any (has_long choice file.now.directives)
        (items_where_true reached.now file.now.modules)) }
{
    let tick = tick_of(file.directives.as_slice());
    let modules = file.modules.as_slice();
    let mut by_module = Items::new(alloc);
    let mut is_long = false;
    for i in 0..modules.len() {
        let module = &modules[i];
        let scale = scale_under(tick, settings[i]);
        let (delays, has_long) = module_delays(alloc, choice, scale, module.items.as_slice())?;
        by_module.push(delays)?;
        is_long = with_module(is_long, reached[i], has_long);
    }
    Ok(ChosenDelays {
        delays: ItemDelays {
            by_module,
            none: no_delays(),
        },
        is_long,
    })
}
