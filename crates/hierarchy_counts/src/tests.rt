ghost use Rattle.std.specs.Prelude.{◌≡◌, IfOk};

use super::*;
use list_of::ListOf;
use std::alloc::{AllocError, Global};
use std::test::Fail;

/// An instance of a module, with so many bits that are connected outside.
fn instance(master: usize, bound: u64) -> InstanceCounts
    ensures { result ≡ record { master = master; bound = bound } }
{
    InstanceCounts { master, bound }
}

/// A module with these counts by itself.
fn module(nets: u64, elements: u64, names: u64) -> ModuleCounts {
    ModuleCounts {
        nets,
        elements,
        names,
    }
}

/// A list of instances.
fn list(alloc: Global, instances: &[InstanceCounts]) -> Result<InstanceCountsList, AllocError>
    ensures { IfOk result (λ list. list ≡ instances.now) }
{
    Ok(ListOf::from_vec(Vec::from_slice(alloc, instances)?))
}

#[test]
fn each_instance_is_counted_without_its_bound_nets(rt: HostRuntime) -> Result<(), Fail> {
    let modules = [module(10, 100, 1000), module(3, 5, 7)];
    let instances = [
        list(rt.alloc(), &[instance(1, 2), instance(1, 1)])?,
        list(rt.alloc(), &[])?,
    ];
    let counts = hierarchy_counts(rt.alloc(), &modules, &instances, 0)?;
    let wanted = HierarchyCounts {
        depth: 2,
        nets: 13,
        elements: 110,
        names: 1014,
    };
    assert_eq!(rt; counts, wanted);
    Ok(())
}

#[test]
fn a_module_alone_is_one_deep(rt: HostRuntime) -> Result<(), Fail> {
    let modules = [module(10, 100, 4_294_967_297), module(3, 5, 7)];
    let instances = [
        list(rt.alloc(), &[])?,
        list(rt.alloc(), &[instance(1, 2), instance(1, 1)])?,
    ];
    let counts = hierarchy_counts(rt.alloc(), &modules, &instances, 0)?;
    let wanted = HierarchyCounts {
        depth: 1,
        nets: 10,
        elements: 100,
        names: 4_294_967_296,
    };
    assert_eq!(rt; counts, wanted);
    Ok(())
}

#[test]
fn a_module_in_itself_has_no_end(rt: HostRuntime) -> Result<(), Fail> {
    let modules = [module(2, 1, 3)];
    let instances = [list(rt.alloc(), &[instance(0, 1)])?];
    let counts = hierarchy_counts(rt.alloc(), &modules, &instances, 0)?;
    let wanted = HierarchyCounts {
        depth: 65,
        nets: 66,
        elements: 65,
        names: 195,
    };
    assert_eq!(rt; counts, wanted);
    Ok(())
}
