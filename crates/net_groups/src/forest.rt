ghost use Rattle.std.specs.Prelude.{◌≡◌, ◌<◌, length, slice_index};
ghost use Rattle.net_groups.specs.Forests.{IsForest, IsParent, IsRegrouped, KeepsRoots};
ghost use Rattle.net_groups.specs.Joins.{Walk};

/// The root above a net. On the way each net gets its parent's parent for a parent.
pub(crate) fn find_root(parents: &mut [u32], net: u32) -> u32
    requires forest { IsForest parents.old }
    requires within { net < length parents.old }
    ensures forest { IsForest parents.new }
    ensures regrouped { IsRegrouped parents.old parents.new }
    ensures roots { KeepsRoots parents.old parents.new }
    ensures within { result < length parents.old }
    ensures root { slice_index parents.new result ≡ result }
    ensures above { Walk (IsParent parents.new) net result }
{
    let mut at = net;
    while parents[at as usize] != at {
        let above = parents[parents[at as usize] as usize];
        parents[at as usize] = above;
        at = above;
    }
    at
}
