//! The values in force of a netlist's inputs.

ghost use Rattle.std.specs.Prelude.{◌≡◌, length, map};
ghost use Rattle.first_machine.specs.Places.{placed_value};

use level_range::Logic;

/// What an input with this place is driven with: z where it has none, x where no value came yet.
fn value_at(place: Option<usize>, values: &[Logic]) -> Logic
    ensures { result ≡ placed_value values.now place }
{
    match place {
        Some(place) => values.get(place).copied().unwrap_or(Logic::X),
        None => Logic::Z,
    }
}

/// Puts the values in force.
pub fn force(places: &[Option<usize>], values: &[Logic], forced: &mut [Logic])
    requires { length forced.old ≡ length places.now }
    ensures { forced.new ≡ map (placed_value values.now) places.now }
{
    for (k, place) in places.iter().enumerate() {
        forced[k] = value_at(*place, values);
    }
}
