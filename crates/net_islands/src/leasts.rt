ghost use Rattle.std.specs.Prelude.{◌≡◌, ◌<◌, ◌≤◌, ◌+◌, IfOk, length};
ghost use Rattle.std.specs.List.{All};
ghost use Rattle.net_groups.specs.Joins.{AreBelow};
ghost use Rattle.flat_net.specs.Elements.{switch_ends as switch_ends_of};
ghost use Rattle.flat_net.specs.Soundness.{greatest_count};
ghost use Rattle.net_islands.specs.Leasts.{AreRoots, island_count, island_numbers as island_numbers_of, leasts as leasts_of, places as places_of, root_counts as root_counts_of};

use flat_net::Element;
use net_groups::groups_of;
use std::alloc::{AllocError, Global};

/// The pairs of nets that bidirectional switches join.
fn switch_ends(alloc: Global, elements: &[Element]) -> Result<Vec<(u32, u32)>, AllocError>
    ensures { IfOk result (λ pairs. pairs.items ≡ switch_ends_of elements.now) }
{
    elements
        .iter()
        .filter_map(|element| element.ends)
        .collect(alloc)
}

/// For each net the least net that pairs join it with.
fn pair_leasts(alloc: Global, count: u32, pairs: &[(u32, u32)]) -> Result<Vec<u32>, AllocError>
    requires { AreBelow count pairs.now }
    ensures { IfOk result (λ leasts. leasts.items ≡ leasts_of count pairs.now) }
{
    groups_of(alloc, count, pairs)
}

/// For each net the least net that bidirectional switches join it with.
pub(crate) fn leasts(
    alloc: Global,
    count: u32,
    elements: &[Element],
) -> Result<Vec<u32>, AllocError>
    requires { AreBelow count (switch_ends_of elements.now) }
    ensures { IfOk result (λ leasts. leasts.items ≡ leasts_of count (switch_ends_of elements.now)) }
{
    let pairs = switch_ends(alloc, elements)?;
    pair_leasts(alloc, count, &pairs)
}

/// For each net, and behind them all, how many nets below it are the least of their islands.
fn root_counts(alloc: Global, leasts: &[u32]) -> Result<Vec<u32>, AllocError>
    requires { length leasts.now ≤ greatest_count }
    ensures { IfOk result
        (λ counts. counts.items ≡ root_counts_of leasts.now (length leasts.now + 1)) }
{
    let mut counts = Vec::new(alloc);
    let mut count = 0;
    for (net, least) in leasts.iter().enumerate() {
        counts.push(count)?;
        if *least as usize == net {
            count += 1;
        }
    }
    counts.push(count)?;
    Ok(counts)
}

/// For each net the number of its island.
fn island_numbers(alloc: Global, leasts: &[u32], counts: &[u32]) -> Result<Vec<u32>, AllocError>
    requires within { All (λ least. least < length leasts.now) leasts.now }
    requires counts { counts.now ≡ root_counts_of leasts.now (length leasts.now + 1) }
    ensures { IfOk result (λ numbers. numbers.items ≡ island_numbers_of leasts.now) }
{
    let mut numbers = Vec::new(alloc);
    for least in leasts {
        numbers.push(counts[*least as usize])?;
    }
    Ok(numbers)
}

/// How many islands there are, and for each net the number of its island.
pub(crate) fn numbers(alloc: Global, leasts: &[u32]) -> Result<(u32, Vec<u32>), AllocError>
    requires few { length leasts.now ≤ greatest_count }
    requires roots { AreRoots leasts.now }
    ensures count { IfOk result (λ r. r.0 ≡ island_count leasts.now) }
    ensures numbers { IfOk result (λ r. r.1.items ≡ island_numbers_of leasts.now) }
{
    let counts = root_counts(alloc, leasts)?;
    let numbers = island_numbers(alloc, leasts, counts.as_slice())?;
    Ok((counts[leasts.len()], numbers))
}

/// For each net its place in its island, by the numbers of their islands.
pub(crate) fn places(alloc: Global, count: u32, numbers: &[u32]) -> Result<Vec<u32>, AllocError>
    requires few { length numbers.now ≤ greatest_count }
    requires within { All (λ number. number < count) numbers.now }
    ensures { IfOk result (λ places. places.items ≡ places_of numbers.now) }
{
    let mut sizes = vec![in alloc; 0; count as usize]?;
    let mut places = Vec::new(alloc);
    for number in numbers {
        let size = sizes[*number as usize];
        places.push(size)?;
        sizes[*number as usize] = size + 1;
    }
    Ok(places)
}
