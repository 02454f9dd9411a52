//! How planning a small world ends, within budgets of lines.
ghost use Rattle.std.specs.Prelude.{IfOk};
ghost use Rattle.span_base.specs.Name.{IsName};

use crate::{PlanEnd, PlanFault, SetEnd, Unwatched, plan_all, plan_set};
use price_tables::{DcPrice, Fare, Tables};
use span_base::{DcId, MemSink, SetId, Word, read_name};
use std::alloc::Global;
use std::test::Fail;
use workload::{Demand, Mode, SetRule, Workload, World};

fn name(alloc: Global, text: &str) -> Result<Word, Fail>
    ensures { IfOk result IsName }
{
    let name = Word::from_string(String::from_str(alloc, text)?);
    read_name(name.as_bytes())?;
    Ok(name)
}

/// Three centres where only storing costs. Each is near itself and the next.
fn ring(alloc: Global) -> Result<Tables, Fail> {
    let price = DcPrice {
        store: 1000,
        get: 0,
        put: 0,
    };
    let mut tables = Tables::make(alloc)?;
    for centre in ["a", "b", "c"] {
        let centre = name(alloc, centre)?;
        tables.add_dc(alloc, &centre, &centre, price)?;
    }
    for (from, to, latency) in [
        ("a", "a", 1),
        ("a", "b", 5),
        ("a", "c", 50),
        ("b", "a", 50),
        ("b", "b", 1),
        ("b", "c", 5),
        ("c", "a", 5),
        ("c", "b", 50),
        ("c", "c", 1),
    ] {
        let fare = Fare {
            transfer: 0,
            latency,
        };
        tables.add_link(&name(alloc, from)?, &name(alloc, to)?, fare)?;
    }
    Ok(tables)
}

/// Adds a set with a member in each centre, which is to stand so many failures.
fn add_set(alloc: Global, load: &mut Workload, set: &str, failures: u8) -> Result<(), Fail> {
    let set = name(alloc, set)?;
    let rule = SetRule {
        mode: Mode::Direct,
        f: failures,
        read_slo: 10,
        write_slo: 100,
        stored: 1,
        object: 1,
        providers: 1,
    };
    load.add_set(alloc, &set, rule)?;
    for dc in 0..3 {
        let member = Demand {
            dc: DcId(dc),
            gets: 1,
            puts: 1,
        };
        load.add_demand(&set, member)?;
    }
    Ok(())
}

/// Three sets that are to stand so many failures.
fn world(alloc: Global, failures: [u8; 3]) -> Result<World, Fail> {
    let tables = ring(alloc)?;
    let mut load = Workload::make(alloc);
    for (set, failures) in [("s", failures[0]), ("t", failures[1]), ("u", failures[2])] {
        add_set(alloc, &mut load, set, failures)?;
    }
    if !load.are_in_centres(tables.count()) {
        return Err(Fail::new("a member in no centre"));
    }
    Ok(World::make(tables, load)?)
}

/// Any two of the centres serve the members of a set that stands no failure, and half of each would
/// do, so that no single leaf closes its tree. Three centres don't stand three failures.
#[test]
fn sets_end_by_their_search(rt: HostRuntime) -> Result<(), Fail> {
    let alloc = rt.alloc();
    let world = world(alloc, [0, 3, 0])?;
    for (set, budget, end) in [
        (0, 1000, SetEnd::Complete { cost: 2000 }),
        (0, 1, SetEnd::Budget { best: Some(2000) }),
        (0, 0, SetEnd::Budget { best: None }),
        (1, 1000, SetEnd::NoPolicy),
    ] {
        let budget: u16 = budget;
        let mut out = MemSink::make(alloc, Vec::new(alloc));
        if set < world.sets() {
            let planned = plan_set(alloc, &world, SetId(set), u64::from(budget), &mut out);
            assert_eq!(rt; planned, Ok(end));
        }
    }
    Ok(())
}

/// How planning the three sets ends.
fn planned(
    alloc: Global,
    failures: [u8; 3],
    budget: u16,
    out: &mut MemSink,
) -> Result<Result<PlanEnd, PlanFault>, Fail> {
    let world = world(alloc, failures)?;
    let mut nobody = Unwatched;
    Ok(plan_all(alloc, &world, u64::from(budget), out, &mut nobody))
}

/// A search that is cut off tells over a set without a policy, whichever comes first.
#[test]
fn worlds_end_by_their_sets(rt: HostRuntime) -> Result<(), Fail> {
    let alloc = rt.alloc();
    for (failures, budget, end) in [
        ([0, 0, 0], 1000, PlanEnd::Complete),
        ([0, 3, 3], 1000, PlanEnd::NoPolicy { set: SetId(1) }),
        ([0, 3, 0], 1, PlanEnd::Budget { set: SetId(0) }),
        ([3, 3, 0], 1, PlanEnd::Budget { set: SetId(2) }),
    ] {
        let mut out = MemSink::make(alloc, Vec::new(alloc));
        assert_eq!(rt; planned(alloc, failures, budget, &mut out)?, Ok(end));
        let text = out.bytes();
        assert!(rt; text.starts_with(b"span-plan 1\nset s ") && text.ends_with(b"\nend\n"));
    }
    let mut full = MemSink::make(alloc, [1].to_vec(alloc)?);
    assert_eq!(rt;
        planned(alloc, [0, 0, 0], 1000, &mut full)?,
        Err(PlanFault::WriteFault)
    );
    Ok(())
}
