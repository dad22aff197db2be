//! What the delays of a module are counted in.
ghost use Rattle.std.specs.Prelude.{◌≡◌};
ghost use Rattle.item_delays.specs.Scales.{IsScaled};

use chosen_delays::DelayScale;
use module_directives::Settings;

/// The scale of a module with these settings, in a file with this tick.
pub fn scale_under(tick: i8, settings: Settings) -> DelayScale
    requires { IsScaled tick settings }
    ensures unit { result.unit ≡ settings.unit }
    ensures precision { result.precision ≡ settings.precision }
    ensures tick { result.tick ≡ tick }
{
    DelayScale {
        unit: settings.unit,
        precision: settings.precision,
        tick,
    }
}
