//! Copies of states, and states that differ in one part.
use cell_step::{
    CellState, ElementState, IslandState, NetState, NetStateList, Timer, copy_state, same_state,
};
use delay_rule::Pending;
use level_range::{Conduct, Logic, Range};
use std::alloc::{AllocError, Global};
use std::test::Fail;

fn net(timer: Timer) -> NetState {
    NetState {
        settled: Range::new(-1, 6),
        seen: Range::new(-2, 5),
        due: Some(Pending {
            value: Range::new(-3, 4),
            at: 9,
        }),
        charge: Range::new(-4, 4),
        timer,
    }
}

/// An island of two nets, by the timer of the second.
fn island(alloc: Global, timer: Timer) -> Result<CellState, AllocError> {
    let mut nets = Vec::new(alloc);
    nets.push(net(Timer::Idle))?;
    nets.push(net(timer))?;
    Ok(CellState::Island(IslandState {
        nets: NetStateList::from_vec(nets),
    }))
}

/// An element whose last remembered input is the value.
fn element(last: Logic) -> CellState {
    let mut seen = [Logic::X; 10];
    seen[9] = last;
    CellState::Element(ElementState {
        out: Range::new(-5, 3),
        on: Conduct::Unknown,
        due: None,
        switch_due: Some(Pending {
            value: Conduct::On,
            at: 4,
        }),
        state: Logic::Zero,
        seen,
    })
}

#[test]
fn a_copy_is_the_same(rt: HostRuntime) -> Result<(), Fail> {
    let alloc = rt.alloc();
    let running = island(alloc, Timer::Running(7))?;
    assert!(rt; same_state(&running, &copy_state(alloc, &running)?));
    assert!(rt; !same_state(&running, &island(alloc, Timer::Running(8))?));
    assert!(rt; !same_state(&running, &island(alloc, Timer::Ended)?));
    let one = element(Logic::One);
    assert!(rt; same_state(&one, &copy_state(alloc, &one)?));
    assert!(rt; !same_state(&one, &element(Logic::Zero)));
    assert!(rt; !same_state(&one, &running));
    Ok(())
}
