ghost use Rattle.std.specs.Prelude.{◌≡◌, ◌<◌, IfOk, length};
ghost use Rattle.net_groups.specs.Forests.{IsFlat, IsForest, IsRegrouped, IsSingle, IsUnited};
ghost use Rattle.net_groups.specs.Joins.{AreBelow, AreGroups};

use crate::forest::find_root;
use std::alloc::{AllocError, Global};

/// Joins the groups of two nets: the greater root gets the lesser for its parent.
fn unite(parents: &mut [u32], first: u32, second: u32)
    requires forest { IsForest parents.old }
    requires first { first < length parents.old }
    requires second { second < length parents.old }
    ensures { IsUnited parents.old parents.new first second }
{
    let one = find_root(parents, first);
    let other = find_root(parents, second);
    if one < other {
        parents[other as usize] = one;
    } else {
        parents[one as usize] = other;
    }
}

/// Each net as its own parent.
fn single_nets(alloc: Global, count: u32) -> Result<Vec<u32>, AllocError>
    ensures { IfOk result (λ parents. IsSingle count parents.items) }
{
    (0..count).collect(alloc)
}

/// Gives each net its root for a parent.
fn flatten(parents: &mut [u32])
    requires { IsForest parents.old }
    ensures regrouped { IsRegrouped parents.old parents.new }
    ensures forest { IsForest parents.new }
    ensures flat { IsFlat parents.new }
{
    for net in 0..parents.len() {
        let parent = parents[net];
        parents[net] = parents[parent as usize];
    }
}

/// Joins the nets of each pair, from single nets on, and gives each net the least of its group.
fn join_pairs(parents: &mut [u32], pairs: &[(u32, u32)])
    requires single { IsSingle (length parents.old) parents.old }
    requires within { AreBelow (length parents.old) pairs.now }
    ensures { AreGroups (length parents.old) pairs.now parents.new }
{
    for pair in pairs {
        unite(parents, pair.0, pair.1);
    }
    flatten(parents);
}

/// For each net below `count`, the least net that the pairs join it with, over any number of
/// steps.
///
/// The nets of the pairs are below `count`.
pub fn groups_of(alloc: Global, count: u32, pairs: &[(u32, u32)]) -> Result<Vec<u32>, AllocError>
    requires { AreBelow count pairs.now }
    ensures { IfOk result (λ least. AreGroups count pairs.now least.items) }
{
    let mut parents = single_nets(alloc, count)?;
    join_pairs(&mut parents, pairs);
    Ok(parents)
}
