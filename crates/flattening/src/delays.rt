//! The delays of items.
ghost use Rattle.std.specs.Prelude.{◌≡◌, [], slice_index_or};
ghost use Rattle.flattening.specs.Delays.{delays_of, listed_delays};

use delay_rule::Delays;
use list_of::ListOf;
use sqlite_items::Items;

/// The delays of the items of a module, by their indexes.
pub type DelayList = ListOf<Delays>;

/// Such lists, by the indexes of modules.
pub type DelayLists = Items<DelayList>;

/// The delays of each module's items, in ticks, and those of what has no item.
#[derive(Debug, Drop)]
pub struct ItemDelays {
    pub by_module: DelayLists,
    pub none: Delays,
}

impl ItemDelays {
    /// The delays of the items of a module, none where there is no such module.
    fn of_module(&self, master: usize) -> &[Delays]
        ensures { result.now ≡ slice_index_or self.now.by_module master [] }
    {
        match self.by_module.as_slice().get(master) {
            Some(list) => list.as_slice(),
            None => &[],
        }
    }

    /// The delays of an item of a module, by their indexes.
    fn listed(&self, master: usize, item: usize) -> Delays
        ensures { result ≡ listed_delays self.now master item }
    {
        match self.of_module(master).get(item) {
            Some(delays) => *delays,
            None => self.none,
        }
    }

    /// The delays of an item of a module, or of what has no item.
    pub(crate) fn of(&self, master: usize, item: Option<usize>) -> Delays
        ensures { result ≡ delays_of self.now master item }
    {
        match item {
            Some(item) => self.listed(master, item),
            None => self.none,
        }
    }
}
