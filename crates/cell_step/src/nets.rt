ghost use Rattle.std.specs.Prelude.{◌≡◌, IfOk, All, map, length, ◌<◌, ◌≤◌, ◌+◌, ◌^◌};
ghost use Rattle.level_range.specs.Signal.{reads};
ghost use Rattle.delay_rule.specs.Delay.{delay_list};
ghost use Rattle.delay_rule.specs.Inertia.{pending_after, same_signal};
ghost use Rattle.cell_step.specs.Nets.{net_delay, change_delays as change_delays_of, decay_time as decay_time_of, start_timer as start_timer_of, next_timer as next_timer_of, next_net as next_net_of, net_start as net_start_of};

use crate::lists::NetStateList;
use crate::states::{NetState, Timer};
use delay_rule::{Delays, Pending, retarget};
use flat_net::{NetKind, NetPart};
use level_range::Range;
use std::alloc::{AllocError, Global};

/// The delays of a net's changes: a trireg uses its first two.
fn change_delays(part: &NetPart) -> Delays
    ensures { delay_list result ≡ change_delays_of part.now.kind (delay_list part.now.delays) }
{
    let delays = part.delays;
    let ticks = delays.d;
    let count = match part.kind {
        NetKind::Trireg => delays.count.min(2),
        _ => delays.count,
    };
    Delays { count, d: ticks }
}

/// The decay time of a trireg, its third delay; 0 where there is no decay.
fn decay_time(part: &NetPart) -> u32
    ensures time { result ≡ decay_time_of part.now.kind (delay_list part.now.delays) }
    ensures short { result < 2 ^ 31 }
{
    let delays = part.delays;
    match part.kind {
        NetKind::Trireg if delays.count == 3 => delays.d[2],
        _ => 0,
    }
}

/// The timer of a net that isn't driven: an idle one starts where there is a decay.
fn start_timer(time: u32, now: u64, timer: Timer) -> Timer
    requires { now ≤ 2 ^ 48 }
    ensures { result ≡ start_timer_of time now timer }
{
    match timer {
        Timer::Idle => {
            if time == 0 {
                Timer::Idle
            } else {
                Timer::Running(now + u64::from(time))
            }
        }
        Timer::Running(at) => Timer::Running(at),
        Timer::Ended => Timer::Ended,
    }
}

/// The timer after settling: that of a driven net is idle.
fn next_timer(part: &NetPart, now: u64, driven: Range, timer: Timer) -> Timer
    requires { now ≤ 2 ^ 48 }
    ensures { result ≡ next_timer_of part.now now driven timer }
{
    if driven.lo == 0 && driven.hi == 0 {
        start_timer(decay_time(part), now, timer)
    } else {
        Timer::Idle
    }
}

/// What is pending for the seen signal of a net with delays.
fn next_due(part: &NetPart, now: u64, signal: Range, state: NetState) -> Option<Pending<Range>>
    requires { now ≤ 2 ^ 48 }
    ensures { result
        ≡ pending_after same_signal state.seen state.due signal
        (now + net_delay part.now (reads signal)) }
{
    retarget(state.seen, state.due, signal, now, &change_delays(part))
}

/// A net after settling.
pub(crate) fn next_net(
    part: &NetPart,
    now: u64,
    driven: Range,
    signal: Range,
    charge: Range,
    state: NetState,
) -> NetState
    requires { now ≤ 2 ^ 48 }
    ensures { result ≡ next_net_of part.now now driven signal charge state }
{
    let timer = next_timer(part, now, driven, state.timer);
    if part.delays.count == 0 {
        return NetState {
            settled: signal,
            seen: signal,
            due: None,
            charge,
            timer,
        };
    }
    NetState {
        settled: signal,
        seen: state.seen,
        due: next_due(part, now, signal, state),
        charge,
        timer,
    }
}

/// A net at the start, of a charge level that is 0 for a net that is no trireg.
fn start_net(level: u8) -> NetState
    requires { level ≤ 7 }
    ensures { result ≡ net_start_of level }
{
    let charge = Range::new(-(level as i8), level as i8);
    NetState {
        settled: charge,
        seen: charge,
        due: None,
        charge,
        timer: Timer::Idle,
    }
}

/// A list of so many elements.
fn elements<T: Copy + Drop>(alloc: Global, element: T, count: usize) -> Result<Vec<T>, AllocError>
    ensures { IfOk result (λ list. length list.items ≡ count) }
{
    vec![in alloc; element; count]
}

/// The nets of an island at the start, by the levels of their charges.
pub(crate) fn start_nets(alloc: Global, levels: &[u8]) -> Result<NetStateList, AllocError>
    requires { All (λ level. level ≤ 7) levels.now }
    ensures { IfOk result (λ nets. nets ≡ map net_start_of levels.now) }
{
    let mut nets = NetStateList::from_vec(elements(alloc, start_net(0), levels.len())?);
    for place in 0..levels.len() {
        nets.set(place, start_net(levels[place]));
    }
    Ok(nets)
}
