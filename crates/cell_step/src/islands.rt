ghost use Rattle.std.specs.Prelude.{◌≡◌, ◌<◌, ◌≤◌, ◌^◌, [], length, map, slice_index_or, slice_set, All};
ghost use Rattle.level_range.specs.Combine.{join_of};
ghost use Rattle.net_settle.specs.Charges.{signal_at};
ghost use Rattle.flat_net.specs.Islands.{combination_kind as combination_kind_of};
ghost use Rattle.cell_step.specs.Readings.{AreDrivesOf, AreNetsOf, AreSwitchesOf, net_at};
ghost use Rattle.cell_step.specs.Elements.{bit_value as bit_value_of, stuck_signal as stuck_signal_of};
ghost use Rattle.cell_step.specs.Islands.{own_driver as own_driver_of, own_signals as own_signals_of, charges_of, nets_after, next_island};
ghost use Rattle.net_settle.specs.Conditions.{AreCharges};
ghost use Rattle.cell_step.specs.Owns.{driver_signals, stick_nets, HasKinds, CanSettle, left_charges};

use crate::lists::NetStateList;
use crate::nets::next_net;
use crate::states::IslandState;
use crate::view::View;
use flat_net::{Drive, Flat, Island, NetKind, Patch};
use level_range::{Conduct, Kind, Logic, Range, join, span};
use net_settle::{Scratch, settle};

/// How the drivers of a net are combined.
fn combination_kind(kind: NetKind) -> Kind
    ensures { result ≡ combination_kind_of kind }
{
    match kind {
        NetKind::And => Kind::And,
        NetKind::Or => Kind::Or,
        NetKind::Wire
        | NetKind::Tri0
        | NetKind::Tri1
        | NetKind::Supply0
        | NetKind::Supply1
        | NetKind::Trireg => Kind::Plain,
    }
}

/// The driver that a net has by its type.
fn own_driver(kind: NetKind) -> Range
    ensures { result ≡ own_driver_of kind }
{
    match kind {
        NetKind::Tri0 => Range::new(-5, -5),
        NetKind::Tri1 => Range::new(5, 5),
        NetKind::Supply0 => Range::new(-7, -7),
        NetKind::Supply1 => Range::new(7, 7),
        NetKind::Wire | NetKind::And | NetKind::Or | NetKind::Trireg => Range::new(0, 0),
    }
}

/// What a net's own driver and the input in force drive together.
fn first_signal<V: View>(flat: &Flat, net: u32, view: &V) -> Range
    requires view { V.View.netlist view.now ≡ flat.now }
    requires net { net < length flat.now.parts.nets }
    ensures { result
        ≡ join_of (combination_kind_of (net_at flat.now.parts net).kind)
        (own_driver_of (net_at flat.now.parts net).kind) ((V.View.readings view.now).input net) }
{
    let kind = flat.net(net).kind;
    join(own_driver(kind), view.input(net), combination_kind(kind))
}

/// What the nets' own drivers and the inputs in force drive.
fn start_own<V: View>(own: &mut [Range], flat: &Flat, island: &Island, view: &V)
    requires view { V.View.netlist view.now ≡ flat.now }
    requires nets { AreNetsOf flat.now.parts island.now.nets }
    requires size { length own.old ≡ length island.now.nets }
    ensures { own.new ≡ driver_signals flat.now.parts (V.View.readings view.now) island.now [] }
{
    let nets = island.nets.as_slice();
    for place in 0..own.len() {
        own[place] = first_signal(flat, nets[place], view);
    }
}

/// Joins what an output pin drives to the signal of its net.
fn join_drive(own: &mut [Range], kinds: &[Kind], place: usize, driven: Range)
    requires own { place < length own.old }
    requires kinds { place < length kinds.now }
    ensures { own.new
        ≡ slice_set own.old place
        (join_of (slice_index_or kinds.now place Kind.Plain) (signal_at own.old place) driven) }
{
    own[place] = join(own[place], driven, kinds[place]);
}

/// Joins what the output pins drive, each to the signal of its net.
fn join_drives<V: View>(own: &mut [Range], flat: &Flat, island: &Island, view: &V)
    requires view { V.View.netlist view.now ≡ flat.now }
    requires kinds { HasKinds flat.now.parts island.now }
    requires shape { length island.now.shape.kinds ≡ length island.now.nets }
    requires drives { AreDrivesOf flat.now.parts island.now.drives }
    requires places { All (λ (drive : Drive). drive.place < length island.now.nets) island.now.drives }
    requires first { own.old ≡ driver_signals flat.now.parts (V.View.readings view.now) island.now [] }
    ensures { own.new
        ≡ driver_signals flat.now.parts (V.View.readings view.now) island.now island.now.drives }
{
    let kinds = island.shape.kinds.as_slice();
    for drive in island.drives.as_slice() {
        let driven = view.drive(drive.element, drive.pin);
        join_drive(own, kinds, drive.place as usize, driven);
    }
}

/// The signal of what is stuck at 1 or 0 with the strength supply.
fn stuck_net(value: bool) -> Range
    ensures { result ≡ stuck_signal_of 7 value }
{
    let value = if value { Logic::One } else { Logic::Zero };
    span(value, 7, 7)
}

/// Puts the signal of a stuck net into its place.
fn stick_net(own: &mut [Range], nets: &[u32], stuck: u32, value: bool)
    requires size { length own.old ≡ length nets.now }
    ensures { own.new ≡ stick_nets (Patch.NetStuck stuck value) nets.now own.old }
{
    for place in 0..own.len() {
        if nets[place] == stuck {
            own[place] = stuck_net(value);
        }
    }
}

/// What the switches of an island conduct.
fn read_switches<V: View>(on: &mut [Conduct], flat: &Flat, links: &[u32], view: &V)
    requires view { V.View.netlist view.now ≡ flat.now }
    requires links { AreSwitchesOf flat.now.parts links.now }
    requires size { length on.old ≡ length links.now }
    ensures { on.new ≡ map (V.View.readings view.now).conduct links.now }
{
    for k in 0..on.len() {
        on[k] = view.conduct(links[k]);
    }
}

/// The charges of an island's nets.
fn read_charges(charges: &mut [Range], nets: &NetStateList)
    requires { length charges.old ≡ length nets.now }
    ensures { charges.new ≡ charges_of nets.now }
{
    for place in 0..charges.len() {
        let state = nets.at(place);
        charges[place] = state.charge;
    }
}

/// The own signals of an island's nets.
fn read_own<V: View>(
    own: &mut [Range],
    flat: &Flat,
    island: &Island,
    patch: Patch,
    view: &V,
    state: &IslandState,
)
    requires view { V.View.netlist view.now ≡ flat.now }
    requires island { CanSettle flat.now.parts island.now state.now }
    requires size { length own.old ≡ length island.now.nets }
    ensures { own.new ≡ own_signals_of flat.now.parts (V.View.readings view.now) patch island.now }
{
    start_own(own, flat, island, view);
    join_drives(own, flat, island, view);
    if let Patch::NetStuck { net, value } = patch {
        stick_net(own, island.nets.as_slice(), net, value);
    }
}

/// The nets of an island after settling.
fn step_nets(
    nets: &mut NetStateList,
    flat: &Flat,
    island: &Island,
    now: u64,
    driven: &[Range],
    signals: &[Range],
    charges: &[Range],
)
    requires time { now ≤ 2 ^ 48 }
    requires numbers { AreNetsOf flat.now.parts island.now.nets }
    requires size { length nets.old ≡ length island.now.nets }
    requires driven { length driven.now ≡ length island.now.nets }
    requires signals { length signals.now ≡ length island.now.nets }
    requires charges { length charges.now ≡ length island.now.nets }
    ensures { nets.new
        ≡ nets_after flat.now.parts island.now now driven.now signals.now charges.now nets.old }
{
    let numbers = island.nets.as_slice();
    for place in 0..numbers.len() {
        let state = nets.at(place);
        let part = flat.net(numbers[place]);
        let next = next_net(
            part,
            now,
            driven[place],
            signals[place],
            charges[place],
            state,
        );
        nets.set(place, next);
    }
}

/// An island after settling, whose own signals and switches are given. The lists are as long as the
/// island has nets.
fn settle_nets(
    state: &mut IslandState,
    flat: &Flat,
    island: &Island,
    now: u64,
    own: &[Range],
    on: &[Conduct],
    charges: &mut [Range],
    driven: &mut [Range],
    signals: &mut [Range],
    scratch: &mut Scratch,
)
    requires time { now ≤ 2 ^ 48 }
    requires island { CanSettle flat.now.parts island.now state.old }
    requires own { length own.now ≡ length island.now.nets }
    requires on { length on.now ≡ length island.now.links }
    requires charges { length charges.old ≡ length island.now.nets }
    requires driven { length driven.old ≡ length island.now.nets }
    requires signals { length signals.old ≡ length island.now.nets }
    requires room { length island.now.nets ≤ scratch.old }
    ensures state { state.new
        ≡ next_island flat.now.parts island.now now own.now on.now state.old }
    ensures charges { AreCharges island.now.shape.charge
        (left_charges island.now own.now on.now state.old) }
    ensures room { scratch.new ≡ scratch.old }
{
    read_charges(charges, &state.nets);
    settle(&island.shape, own, on, charges, driven, signals, scratch);
    step_nets(&mut state.nets, flat, island, now, driven, signals, charges);
}

/// An island after its part in a pass, in lists that are as long as it has nets, or links.
fn settle_island<V: View>(
    state: &mut IslandState,
    flat: &Flat,
    island: &Island,
    patch: Patch,
    view: &V,
    now: u64,
    own: &mut [Range],
    on: &mut [Conduct],
    charges: &mut [Range],
    driven: &mut [Range],
    signals: &mut [Range],
    scratch: &mut Scratch,
)
    requires view { V.View.netlist view.now ≡ flat.now }
    requires time { now ≤ 2 ^ 48 }
    requires island { CanSettle flat.now.parts island.now state.old }
    requires own { length own.old ≡ length island.now.nets }
    requires on { length on.old ≡ length island.now.links }
    requires charges { length charges.old ≡ length island.now.nets }
    requires driven { length driven.old ≡ length island.now.nets }
    requires signals { length signals.old ≡ length island.now.nets }
    requires room { length island.now.nets ≤ scratch.old }
    ensures state { state.new
        ≡ next_island flat.now.parts island.now now
        (own_signals_of flat.now.parts (V.View.readings view.now) patch island.now)
        (map (V.View.readings view.now).conduct island.now.links) state.old }
    ensures charges { AreCharges island.now.shape.charge
        (left_charges island.now
        (own_signals_of flat.now.parts (V.View.readings view.now) patch island.now)
        (map (V.View.readings view.now).conduct island.now.links) state.old) }
    ensures room { scratch.new ≡ scratch.old }
{
    read_own(own, flat, island, patch, view, state);
    read_switches(on, flat, island.links.as_slice(), view);
    settle_nets(
        state, flat, island, now, own, on, charges, driven, signals, scratch,
    );
}

/// An island after its part in a pass, in lists that have at least as many places as it has nets, or
/// links.
pub(crate) fn settle_in_lists<V: View>(
    state: &mut IslandState,
    flat: &Flat,
    island: &Island,
    patch: Patch,
    view: &V,
    now: u64,
    own: &mut [Range],
    on: &mut [Conduct],
    charges: &mut [Range],
    driven: &mut [Range],
    signals: &mut [Range],
    scratch: &mut Scratch,
)
    requires view { V.View.netlist view.now ≡ flat.now }
    requires time { now ≤ 2 ^ 48 }
    requires island { CanSettle flat.now.parts island.now state.old }
    requires own { length island.now.nets ≤ length own.old }
    requires on { length island.now.links ≤ length on.old }
    requires charges { length island.now.nets ≤ length charges.old }
    requires driven { length island.now.nets ≤ length driven.old }
    requires signals { length island.now.nets ≤ length signals.old }
    requires room { length island.now.nets ≤ scratch.old }
    ensures state { state.new
        ≡ next_island flat.now.parts island.now now
        (own_signals_of flat.now.parts (V.View.readings view.now) patch island.now)
        (map (V.View.readings view.now).conduct island.now.links) state.old }
    ensures charges { AreCharges island.now.shape.charge
        (left_charges island.now
        (own_signals_of flat.now.parts (V.View.readings view.now) patch island.now)
        (map (V.View.readings view.now).conduct island.now.links) state.old) }
    ensures room { scratch.new ≡ scratch.old }
{
    let nets = island.nets.as_slice().len();
    let links = island.links.as_slice().len();
    settle_island(
        state,
        flat,
        island,
        patch,
        view,
        now,
        &mut own[..nets],
        &mut on[..links],
        &mut charges[..nets],
        &mut driven[..nets],
        &mut signals[..nets],
        scratch,
    );
}
