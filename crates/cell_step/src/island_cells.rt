ghost use Rattle.std.specs.Prelude.{◌≡◌, ◌+◌, ◌<◌, ◌≤◌, ◌^◌, IfOk, length};
ghost use Rattle.flat_net.specs.declared.kinds.Cell.{Cell};
ghost use Rattle.flat_net.specs.Patches.{Fits};
ghost use Rattle.flat_net.specs.Soundness.{IsSound};
ghost use Rattle.cell_step.specs.Readings.{island_at};
ghost use Rattle.cell_step.specs.Islands.{island_after, island_start};
ghost use Rattle.cell_step.specs.Fitting.{FitsIsland};

use crate::bench::Bench;
use crate::islands::settle_in_lists;
use crate::nets::start_nets;
use crate::states::IslandState;
use crate::steps::Steps;
use crate::view::View;
use flat_net::{Flat, Patch};
use std::alloc::{AllocError, Global};
use std::sync::ledger::Ledger;

/// An island's part in a pass at `now`: its nets settle from what the view answers of its drives, its
/// switches and its inputs; then what is seen of each net becomes the settled signal, at once where
/// the net has no delay, else by its delay. One step is counted, and no memory is taken.
pub fn island_step<V: View, L: Ledger>(
    flat: &Flat,
    i: u32,
    patch: Patch,
    state: &mut IslandState,
    view: &V,
    now: u64,
    bench: &mut Bench,
    steps: &mut Steps<L>,
)
    requires island { i < length flat.now.parts.islands }
    requires view { V.View.netlist view.now ≡ flat.now }
    requires time { now ≤ 2 ^ 48 }
    requires patch { Fits flat.now.parts (Cell.Island i) patch }
    requires state { FitsIsland flat.now.parts i state.old }
    requires nets { length (island_at flat.now.parts i).nets ≤ bench.old.nets }
    requires links { length (island_at flat.now.parts i).links ≤ bench.old.links }
    ensures state { state.new
        ≡ island_after flat.now.parts i patch now (V.View.readings view.now) state.old }
    ensures fits { FitsIsland flat.now.parts i state.new }
    ensures room { bench.new ≡ bench.old }
    ensures steps { steps.new ≡ steps.old + 1 }
{
    // The netlist is known to be sound where it is read.
    let _nets = flat.net_count();
    steps.tick();
    settle_in_lists(
        state,
        flat,
        flat.island(i),
        patch,
        view,
        now,
        bench.own.as_mut_slice(),
        bench.on.as_mut_slice(),
        bench.charges.as_mut_slice(),
        bench.driven.as_mut_slice(),
        bench.out.as_mut_slice(),
        &mut bench.scratch,
    );
}

/// An island at the start: the settled and the seen signal of each net are z, and of a trireg its
/// charge, whose value isn't known.
pub fn start_island(alloc: Global, flat: &Flat, i: u32) -> Result<IslandState, AllocError>
    requires { i < length flat.now.parts.islands }
    ensures start { IfOk result (λ state. state ≡ island_start flat.now.parts i) }
    ensures fits { IfOk result (λ state. FitsIsland flat.now.parts i state) }
{
    let _nets = flat.net_count();
    let levels = flat.island(i).shape.charge.as_slice();
    Ok(IslandState {
        nets: start_nets(alloc, levels)?,
    })
}
