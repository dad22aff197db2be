//! Islands and what becomes of their nets, pass by pass.
use cell_step::Timer;
use cell_step::Timer::{Ended, Idle, Running};
use flat_net::NetKind::{And, Or, Supply1, Tri0, Trireg, Wire};
use flat_net::{NetKind, Patch};
use level_range::Conduct;
use level_range::Conduct::{Off, On};

/// A net: its type, the level of its charge, and its delays in ticks.
pub struct Net {
    pub kind: NetKind,
    pub charge: u8,
    pub delays: &'static [u16],
}

/// A pass at a tick: what the output pin on each net drives, the input at the first net, and what each
/// switch conducts; and of each net the signals, the tick of the change that is pending, the charge and
/// the timer that come of it.
pub struct IslandPass {
    pub now: u64,
    pub drives: &'static [(i8, i8)],
    pub input: (i8, i8),
    pub on: &'static [Conduct],
    pub settled: &'static [(i8, i8)],
    pub seen: &'static [(i8, i8)],
    pub due: &'static [Option<u64>],
    pub charges: &'static [(i8, i8)],
    pub timers: &'static [Timer],
}

/// An island with a patch, its switches (two nets, and whether it is resistive), and passes.
pub struct IslandCase {
    pub nets: &'static [Net],
    pub links: &'static [(u32, u32, bool)],
    pub patch: Patch,
    pub passes: &'static [IslandPass],
}

static ISLANDS: [IslandCase; 12] = [
    // A driver against an input in force.
    IslandCase {
        nets: &[Net {
            kind: Wire,
            charge: 0,
            delays: &[],
        }],
        links: &[],
        patch: Patch::Whole,
        passes: &[
            IslandPass {
                now: 0,
                drives: &[(5, 5)],
                input: (-6, -6),
                on: &[],
                settled: &[(-6, -6)],
                seen: &[(-6, -6)],
                due: &[None],
                charges: &[(0, 0)],
                timers: &[Idle],
            },
            IslandPass {
                now: 0,
                drives: &[(6, 6)],
                input: (-6, -6),
                on: &[],
                settled: &[(-6, 6)],
                seen: &[(-6, 6)],
                due: &[None],
                charges: &[(0, 0)],
                timers: &[Idle],
            },
        ],
    },

    // The same on a wand and a wor net.
    IslandCase {
        nets: &[Net {
            kind: And,
            charge: 0,
            delays: &[],
        }],
        links: &[],
        patch: Patch::Whole,
        passes: &[IslandPass {
            now: 0,
            drives: &[(6, 6)],
            input: (-6, -6),
            on: &[],
            settled: &[(-6, -6)],
            seen: &[(-6, -6)],
            due: &[None],
            charges: &[(0, 0)],
            timers: &[Idle],
        }],
    },

    // A wor net.
    IslandCase {
        nets: &[Net {
            kind: Or,
            charge: 0,
            delays: &[],
        }],
        links: &[],
        patch: Patch::Whole,
        passes: &[IslandPass {
            now: 0,
            drives: &[(6, 6)],
            input: (-6, -6),
            on: &[],
            settled: &[(6, 6)],
            seen: &[(6, 6)],
            due: &[None],
            charges: &[(0, 0)],
            timers: &[Idle],
        }],
    },

    // A tri0 net alone, and with a stronger driver.
    IslandCase {
        nets: &[Net {
            kind: Tri0,
            charge: 0,
            delays: &[],
        }],
        links: &[],
        patch: Patch::Whole,
        passes: &[
            IslandPass {
                now: 0,
                drives: &[(0, 0)],
                input: (0, 0),
                on: &[],
                settled: &[(-5, -5)],
                seen: &[(-5, -5)],
                due: &[None],
                charges: &[(0, 0)],
                timers: &[Idle],
            },
            IslandPass {
                now: 0,
                drives: &[(6, 6)],
                input: (0, 0),
                on: &[],
                settled: &[(6, 6)],
                seen: &[(6, 6)],
                due: &[None],
                charges: &[(0, 0)],
                timers: &[Idle],
            },
        ],
    },

    // A stuck net has the strength supply whatever drives it.
    IslandCase {
        nets: &[Net {
            kind: Wire,
            charge: 0,
            delays: &[],
        }],
        links: &[],
        patch: Patch::NetStuck {
            net: 0,
            value: true,
        },
        passes: &[IslandPass {
            now: 0,
            drives: &[(-6, -6)],
            input: (-7, -7),
            on: &[],
            settled: &[(7, 7)],
            seen: &[(7, 7)],
            due: &[None],
            charges: &[(0, 0)],
            timers: &[Idle],
        }],
    },

    // A net with the delays 5 and 3: a rise, and a fall that takes it back.
    IslandCase {
        nets: &[Net {
            kind: Wire,
            charge: 0,
            delays: &[5, 3],
        }],
        links: &[],
        patch: Patch::Whole,
        passes: &[
            IslandPass {
                now: 10,
                drives: &[(6, 6)],
                input: (0, 0),
                on: &[],
                settled: &[(6, 6)],
                seen: &[(0, 0)],
                due: &[Some(15)],
                charges: &[(0, 0)],
                timers: &[Idle],
            },
            IslandPass {
                now: 12,
                drives: &[(-6, -6)],
                input: (0, 0),
                on: &[],
                settled: &[(-6, -6)],
                seen: &[(0, 0)],
                due: &[Some(15)],
                charges: &[(0, 0)],
                timers: &[Idle],
            },
            IslandPass {
                now: 15,
                drives: &[(-6, -6)],
                input: (0, 0),
                on: &[],
                settled: &[(-6, -6)],
                seen: &[(-6, -6)],
                due: &[None],
                charges: &[(0, 0)],
                timers: &[Idle],
            },
            IslandPass {
                now: 20,
                drives: &[(6, 6)],
                input: (0, 0),
                on: &[],
                settled: &[(6, 6)],
                seen: &[(-6, -6)],
                due: &[Some(25)],
                charges: &[(0, 0)],
                timers: &[Idle],
            },
            IslandPass {
                now: 22,
                drives: &[(-6, -6)],
                input: (0, 0),
                on: &[],
                settled: &[(-6, -6)],
                seen: &[(-6, -6)],
                due: &[None],
                charges: &[(0, 0)],
                timers: &[Idle],
            },
        ],
    },

    // A net with the delay 0 is seen one pass later.
    IslandCase {
        nets: &[Net {
            kind: Wire,
            charge: 0,
            delays: &[0],
        }],
        links: &[],
        patch: Patch::Whole,
        passes: &[
            IslandPass {
                now: 7,
                drives: &[(6, 6)],
                input: (0, 0),
                on: &[],
                settled: &[(6, 6)],
                seen: &[(0, 0)],
                due: &[Some(7)],
                charges: &[(0, 0)],
                timers: &[Idle],
            },
            IslandPass {
                now: 7,
                drives: &[(6, 6)],
                input: (0, 0),
                on: &[],
                settled: &[(6, 6)],
                seen: &[(6, 6)],
                due: &[None],
                charges: &[(0, 0)],
                timers: &[Idle],
            },
        ],
    },

    // A large trireg keeps what drove it, against a weaker driver too.
    IslandCase {
        nets: &[Net {
            kind: Trireg,
            charge: 4,
            delays: &[],
        }],
        links: &[],
        patch: Patch::Whole,
        passes: &[
            IslandPass {
                now: 0,
                drives: &[(6, 6)],
                input: (0, 0),
                on: &[],
                settled: &[(6, 6)],
                seen: &[(6, 6)],
                due: &[None],
                charges: &[(4, 4)],
                timers: &[Idle],
            },
            IslandPass {
                now: 1,
                drives: &[(-3, -3)],
                input: (0, 0),
                on: &[],
                settled: &[(-3, -3)],
                seen: &[(-3, -3)],
                due: &[None],
                charges: &[(-4, -4)],
                timers: &[Idle],
            },
            IslandPass {
                now: 2,
                drives: &[(0, 0)],
                input: (0, 0),
                on: &[],
                settled: &[(-4, -4)],
                seen: &[(-4, -4)],
                due: &[None],
                charges: &[(-4, -4)],
                timers: &[Idle],
            },
            IslandPass {
                now: 3,
                drives: &[(0, 3)],
                input: (0, 0),
                on: &[],
                settled: &[(-4, 4)],
                seen: &[(-4, 4)],
                due: &[None],
                charges: &[(-4, 4)],
                timers: &[Idle],
            },
        ],
    },

    // The decay of a charge, 50 ticks after the last driver; it begins anew only after another one.
    IslandCase {
        nets: &[Net {
            kind: Trireg,
            charge: 4,
            delays: &[0, 0, 50],
        }],
        links: &[],
        patch: Patch::Whole,
        passes: &[
            IslandPass {
                now: 0,
                drives: &[(6, 6)],
                input: (0, 0),
                on: &[],
                settled: &[(6, 6)],
                seen: &[(-4, 4)],
                due: &[Some(0)],
                charges: &[(4, 4)],
                timers: &[Idle],
            },
            IslandPass {
                now: 0,
                drives: &[(6, 6)],
                input: (0, 0),
                on: &[],
                settled: &[(6, 6)],
                seen: &[(6, 6)],
                due: &[None],
                charges: &[(4, 4)],
                timers: &[Idle],
            },
            IslandPass {
                now: 10,
                drives: &[(0, 0)],
                input: (0, 0),
                on: &[],
                settled: &[(4, 4)],
                seen: &[(6, 6)],
                due: &[Some(10)],
                charges: &[(4, 4)],
                timers: &[Running(60)],
            },
            IslandPass {
                now: 59,
                drives: &[(0, 0)],
                input: (0, 0),
                on: &[],
                settled: &[(4, 4)],
                seen: &[(4, 4)],
                due: &[None],
                charges: &[(4, 4)],
                timers: &[Running(60)],
            },
            IslandPass {
                now: 60,
                drives: &[(0, 0)],
                input: (0, 0),
                on: &[],
                settled: &[(-4, 4)],
                seen: &[(4, 4)],
                due: &[Some(60)],
                charges: &[(-4, 4)],
                timers: &[Ended],
            },
            IslandPass {
                now: 200,
                drives: &[(0, 0)],
                input: (0, 0),
                on: &[],
                settled: &[(-4, 4)],
                seen: &[(-4, 4)],
                due: &[None],
                charges: &[(-4, 4)],
                timers: &[Ended],
            },
            IslandPass {
                now: 201,
                drives: &[(-6, -6)],
                input: (0, 0),
                on: &[],
                settled: &[(-6, -6)],
                seen: &[(-4, 4)],
                due: &[Some(201)],
                charges: &[(-4, -4)],
                timers: &[Idle],
            },
        ],
    },

    // The decay time of a trireg is no delay of a change to z.
    IslandCase {
        nets: &[Net {
            kind: Trireg,
            charge: 1,
            delays: &[9, 8, 50],
        }],
        links: &[],
        patch: Patch::Whole,
        passes: &[IslandPass {
            now: 0,
            drives: &[(6, 6)],
            input: (0, 0),
            on: &[],
            settled: &[(6, 6)],
            seen: &[(-1, 1)],
            due: &[Some(9)],
            charges: &[(1, 1)],
            timers: &[Idle],
        }],
    },

    // Supply behind a switch and a resistive one.
    IslandCase {
        nets: &[
            Net {
                kind: Supply1,
                charge: 0,
                delays: &[],
            },
            Net {
                kind: Wire,
                charge: 0,
                delays: &[],
            },
            Net {
                kind: Wire,
                charge: 0,
                delays: &[],
            },
        ],
        links: &[(0, 1, false), (1, 2, true)],
        patch: Patch::Whole,
        passes: &[
            IslandPass {
                now: 0,
                drives: &[(0, 0), (0, 0), (0, 0)],
                input: (0, 0),
                on: &[On, On],
                settled: &[(7, 7), (6, 6), (5, 5)],
                seen: &[(7, 7), (6, 6), (5, 5)],
                due: &[None, None, None],
                charges: &[(0, 0), (0, 0), (0, 0)],
                timers: &[Idle, Idle, Idle],
            },
            IslandPass {
                now: 0,
                drives: &[(0, 0), (0, 0), (0, 0)],
                input: (0, 0),
                on: &[On, Off],
                settled: &[(7, 7), (6, 6), (0, 0)],
                seen: &[(7, 7), (6, 6), (0, 0)],
                due: &[None, None, None],
                charges: &[(0, 0), (0, 0), (0, 0)],
                timers: &[Idle, Idle, Idle],
            },
        ],
    },

    // A small and a large charge, shared and then apart.
    IslandCase {
        nets: &[
            Net {
                kind: Trireg,
                charge: 1,
                delays: &[],
            },
            Net {
                kind: Trireg,
                charge: 4,
                delays: &[],
            },
        ],
        links: &[(0, 1, false)],
        patch: Patch::Whole,
        passes: &[
            IslandPass {
                now: 0,
                drives: &[(-6, -6), (6, 6)],
                input: (0, 0),
                on: &[Off],
                settled: &[(-6, -6), (6, 6)],
                seen: &[(-6, -6), (6, 6)],
                due: &[None, None],
                charges: &[(-1, -1), (4, 4)],
                timers: &[Idle, Idle],
            },
            IslandPass {
                now: 1,
                drives: &[(0, 0), (0, 0)],
                input: (0, 0),
                on: &[On],
                settled: &[(4, 4), (4, 4)],
                seen: &[(4, 4), (4, 4)],
                due: &[None, None],
                charges: &[(1, 1), (4, 4)],
                timers: &[Idle, Idle],
            },
            IslandPass {
                now: 2,
                drives: &[(0, 0), (0, 0)],
                input: (0, 0),
                on: &[Off],
                settled: &[(1, 1), (4, 4)],
                seen: &[(1, 1), (4, 4)],
                due: &[None, None],
                charges: &[(1, 1), (4, 4)],
                timers: &[Idle, Idle],
            },
        ],
    },
];

pub(crate) fn islands() -> &'static [IslandCase] {
    &ISLANDS
}
