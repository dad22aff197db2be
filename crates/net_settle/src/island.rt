ghost use Rattle.std.specs.Prelude.{◌≡◌, ◌≤◌, ◌≤ℤ◌, ℕ, length, [], All};
ghost use Rattle.level_range.specs.Signal.{IsSignal};
ghost use Rattle.net_settle.specs.Bounds.{at};
ghost use Rattle.net_settle.specs.Settling.{AreSettled};
ghost use Rattle.net_settle.specs.ByLevels.{signals_between};
ghost use Rattle.net_settle.specs.OneSide.{bounds_on, AreBoundsOn};
ghost use Rattle.net_settle.specs.Charges.{charged_signals, prefer_driven_signals, charges_left, switches_of, driven_signals, island_signals};
ghost use Rattle.net_settle.specs.Conditions.{EndsWithin, IsChargeLevel, AreCharges, OthersStay, AreCharged, CanSettle, IsIsland};

use crate::charge::{charge_left, contribution, excludes_zero};
use crate::level::{Level, signal};
use crate::scratch::Scratch;
use crate::shape::{Link, Shape};
use crate::side::Side;
use crate::spread::settle_bounds;
use level_range::{Conduct, Kind, Range, join};

/// The finished bounds of both sides.
fn settle_both(
    lower: &mut [Level],
    upper: &mut [Level],
    links: &[Link],
    on: &[Conduct],
    own: &[Range],
)
    requires lower { length own.now ≡ length lower.old }
    requires upper { length own.now ≡ length upper.old }
    requires conduction { length on.now ≡ length links.now }
    requires ends { EndsWithin (length own.now) links.now }
    ensures lower { lower.new ≡ bounds_on Side.Lower links.now on.now own.now }
    ensures upper { upper.new ≡ bounds_on Side.Upper links.now on.now own.now }
    ensures settled_lower { AreBoundsOn Side.Lower links.now on.now own.now lower.new }
    ensures settled_upper { AreBoundsOn Side.Upper links.now on.now own.now upper.new }
    ensures in_order { (n : ℕ) → at lower.new n ≤ℤ at upper.new n }
    ensures own { All IsSignal own.now }
{
    settle_bounds(lower, links, on, own, Side::Lower);
    settle_bounds(upper, links, on, own, Side::Upper);
}

/// The signals without charges.
fn drive(driven: &mut [Range], lower: &[Level], upper: &[Level])
    requires lower { length lower.now ≡ length driven.old }
    requires upper { length upper.now ≡ length driven.old }
    requires in_order { (n : ℕ) → at lower.now n ≤ℤ at upper.now n }
    ensures { driven.new ≡ signals_between lower.now upper.now (length driven.old) }
{
    for net in 0..driven.len() {
        driven[net] = signal(lower[net], upper[net]);
    }
}

/// The own signals with what the charges contribute.
fn charge_signals(
    out: &mut [Range],
    kinds: &[Kind],
    levels: &[u8],
    own: &[Range],
    charges: &[Range],
    driven: &[Range],
)
    requires own { length own.now ≡ length out.old }
    requires kinds { length kinds.now ≡ length out.old }
    requires levels { length levels.now ≡ length out.old }
    requires strengths { All IsChargeLevel levels.now }
    requires charges { length charges.now ≡ length out.old }
    requires driven { length driven.now ≡ length out.old }
    ensures { out.new ≡ charged_signals kinds.now levels.now own.now charges.now driven.now }
{
    for net in 0..out.len() {
        let given = contribution(levels[net], charges[net], driven[net]);
        out[net] = join(own[net], given, kinds[net]);
    }
}

/// The driven signals where they exclude 0, else those between the bounds.
fn choose(out: &mut [Range], driven: &[Range], lower: &[Level], upper: &[Level])
    requires driven { length driven.now ≡ length out.old }
    requires lower { length lower.now ≡ length out.old }
    requires upper { length upper.now ≡ length out.old }
    requires in_order { (n : ℕ) → at lower.now n ≤ℤ at upper.now n }
    ensures { out.new
        ≡ prefer_driven_signals driven.now (signals_between lower.now upper.now (length out.old)) }
{
    for net in 0..out.len() {
        out[net] = if excludes_zero(driven[net]) {
            driven[net]
        } else {
            signal(lower[net], upper[net])
        };
    }
}

/// What becomes of the charges by the signals of their nets.
fn keep_charges(charges: &mut [Range], levels: &[u8], signals: &[Range])
    requires levels { length levels.now ≡ length charges.old }
    requires strengths { All IsChargeLevel levels.now }
    requires signals { length signals.now ≡ length charges.old }
    ensures value { charges.new ≡ charges_left levels.now charges.old signals.now }
    ensures charged { AreCharges levels.now charges.new }
    ensures stays { OthersStay levels.now charges.old charges.new }
{
    for net in 0..charges.len() {
        charges[net] = charge_left(levels[net], charges[net], signals[net]);
    }
}

/// Settles an island by its lists, in memory for its bounds.
fn settle_lists(
    shape: &Shape,
    own: &[Range],
    on: &[Conduct],
    charges: &mut [Range],
    driven: &mut [Range],
    out: &mut [Range],
    lower: &mut [Level],
    upper: &mut [Level],
)
    requires island { IsIsland shape.now (length own.now) charges.old }
    requires conduction { length on.now ≡ length shape.now.links }
    requires driven_nets { length driven.old ≡ length own.now }
    requires out_nets { length out.old ≡ length own.now }
    requires lower_nets { length own.now ≤ length lower.old }
    requires upper_nets { length own.now ≤ length upper.old }
    ensures driven { driven.new ≡ driven_signals shape.now on.now own.now }
    ensures signals { out.new ≡ island_signals shape.now on.now own.now charges.old }
    ensures charges { charges.new ≡ charges_left shape.now.charge charges.old out.new }
    ensures driven_settled { AreSettled (switches_of shape.now on.now) own.now driven.new }
    ensures charged { AreCharged shape.now on.now own.now charges.old driven.new out.new }
    ensures left { AreCharges shape.now.charge charges.new }
    ensures stays { OthersStay shape.now.charge charges.old charges.new }
{
    let lower = &mut lower[..own.len()];
    let upper = &mut upper[..own.len()];
    let links = shape.links.as_slice();
    let levels = shape.charge.as_slice();
    settle_both(lower, upper, links, on, own);
    drive(driven, lower, upper);
    charge_signals(out, shape.kinds.as_slice(), levels, own, charges, driven);
    settle_both(lower, upper, links, on, out);
    choose(out, driven, lower, upper);
    keep_charges(charges, levels, out);
}

/// Settles an island of one net without links, whose lists have one place. Such a net has its own
/// signal.
fn settle_alone(
    shape: &Shape,
    own: &[Range],
    on: &[Conduct],
    charges: &mut [Range],
    driven: &mut [Range],
    out: &mut [Range],
)
    requires island { IsIsland shape.now 1 charges.old }
    requires links { shape.now.links ≡ [] }
    requires own { length own.now ≡ 1 }
    requires driven_nets { length driven.old ≡ 1 }
    requires out_nets { length out.old ≡ 1 }
    ensures driven { driven.new ≡ driven_signals shape.now on.now own.now }
    ensures signals { out.new ≡ island_signals shape.now on.now own.now charges.old }
    ensures charges { charges.new ≡ charges_left shape.now.charge charges.old out.new }
    ensures driven_settled { AreSettled (switches_of shape.now on.now) own.now driven.new }
    ensures charged { AreCharged shape.now on.now own.now charges.old driven.new out.new }
    ensures left { AreCharges shape.now.charge charges.new }
    ensures stays { OthersStay shape.now.charge charges.old charges.new }
{
    let levels = shape.charge.as_slice();
    driven[0] = own[0];
    charge_signals(out, shape.kinds.as_slice(), levels, own, charges, driven);
    let first = driven[0];
    let second = out[0];
    // A signal that is read is known to be one.
    let _read = (first.lo, second.lo);
    if excludes_zero(first) {
        out[0] = first;
    }
    keep_charges(charges, levels, out);
}

/// Settles an island.
///
/// `own` has the own signals of the nets, those that their drivers and inputs give, and `on` says
/// what each link does. `driven` gets the signals without charges, and `out` those with them: of a
/// net whose driven signal excludes 0 the driven one, of any other the one that settles with the
/// charges joined to the own signals. `charges` are those before, and get what becomes of them. No
/// memory is taken.
pub fn settle(
    shape: &Shape,
    own: &[Range],
    on: &[Conduct],
    charges: &mut [Range],
    driven: &mut [Range],
    out: &mut [Range],
    scratch: &mut Scratch,
)
    requires { CanSettle shape.now own.now on.now charges.old driven.old out.old scratch.old }
    ensures driven { driven.new ≡ driven_signals shape.now on.now own.now }
    ensures signals { out.new ≡ island_signals shape.now on.now own.now charges.old }
    ensures charges { charges.new ≡ charges_left shape.now.charge charges.old out.new }
    ensures driven_settled { AreSettled (switches_of shape.now on.now) own.now driven.new }
    ensures charged { AreCharged shape.now on.now own.now charges.old driven.new out.new }
    ensures left { AreCharges shape.now.charge charges.new }
    ensures stays { OthersStay shape.now.charge charges.old charges.new }
    ensures room { scratch.new ≡ scratch.old }
{
    if own.len() == 1 && shape.links.as_slice().is_empty() {
        settle_alone(shape, own, on, charges, driven, out);
        return;
    }
    settle_lists(
        shape,
        own,
        on,
        charges,
        driven,
        out,
        scratch.lower.as_mut_slice(),
        scratch.upper.as_mut_slice(),
    );
}
