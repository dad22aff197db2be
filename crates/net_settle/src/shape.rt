ghost use Rattle.std.specs.Prelude.{◌≡◌};

use level_range::Kind;
use std::marker::Model;

/// A bidirectional switch between two nets of an island, each by its place in the island.
#[derive(Clone, Copy, Debug, PartialEq, Eq)]
pub struct Link {
    pub a: u32,
    pub b: u32,
    /// Whether the switch is a resistive one.
    pub resistive: bool,
}

/// How the drivers of each net of an island are combined. Contracts see the list of kinds.
#[derive(Clone, Debug, Drop)]
pub struct KindList {
    kinds: Vec<Kind>,
}

impl Model for KindList {
    ghost use Rattle.std.specs.Prelude.{List};
    ghost use Rattle.level_range.specs.declared.range.Kind.{Kind};

    ghost Value = { List Kind };

    ghost view = { λ k. k.kinds.items };
}

impl KindList {
    /// The kinds of a vector, which is kept.
    pub fn from_vec(kinds: Vec<Kind>) -> KindList
        ensures { result ≡ kinds.items }
    {
        KindList { kinds }
    }

    /// The vector that holds the kinds.
    pub fn into_vec(self) -> Vec<Kind>
        ensures { result.items ≡ self }
    {
        self.kinds
    }

    pub fn as_slice(&self) -> &[Kind]
        ensures { result.now ≡ self.now }
    {
        self.kinds.as_slice()
    }
}

/// The level of the charge of each net of an island. Contracts see the list of levels.
#[derive(Clone, Debug, Drop)]
pub struct LevelList {
    levels: Vec<u8>,
}

impl Model for LevelList {
    ghost use Rattle.std.specs.Prelude.{List, ℕ};

    ghost Value = { List ℕ };

    ghost view = { λ l. l.levels.items };
}

impl LevelList {
    /// The levels of a vector, which is kept.
    pub fn from_vec(levels: Vec<u8>) -> LevelList
        ensures { result ≡ levels.items }
    {
        LevelList { levels }
    }

    /// The vector that holds the levels.
    pub fn into_vec(self) -> Vec<u8>
        ensures { result.items ≡ self }
    {
        self.levels
    }

    pub fn as_slice(&self) -> &[u8]
        ensures { result.now ≡ self.now }
    {
        self.levels.as_slice()
    }
}

/// The switches of an island. Contracts see the list of links.
#[derive(Clone, Debug, Drop)]
pub struct LinkList {
    links: Vec<Link>,
}

impl Model for LinkList {
    ghost use Rattle.std.specs.Prelude.{List};
    ghost use Rattle.net_settle.specs.declared.shape.Link.{Link};

    ghost Value = { List Link };

    ghost view = { λ l. l.links.items };
}

impl LinkList {
    /// The links of a vector, which is kept.
    pub fn from_vec(links: Vec<Link>) -> LinkList
        ensures { result ≡ links.items }
    {
        LinkList { links }
    }

    /// The vector that holds the links.
    pub fn into_vec(self) -> Vec<Link>
        ensures { result.items ≡ self }
    {
        self.links
    }

    pub fn as_slice(&self) -> &[Link]
        ensures { result.now ≡ self.now }
    {
        self.links.as_slice()
    }
}

/// The shape of an island: its nets by their kinds and the levels of their charges, and its switches.
///
/// A net with a charge of level 0 isn't a trireg. Of the other nets the level is 1 for a small, 2 for
/// a medium and 4 for a large charge.
#[derive(Clone, Debug, Drop)]
pub struct Shape {
    pub kinds: KindList,
    pub charge: LevelList,
    pub links: LinkList,
}
