//! Small worlds for the tests.
ghost use Rattle.std.specs.Prelude.{◌≤◌, IfOk};
ghost use Rattle.span_base.specs.Name.{IsName};
ghost use Rattle.placement_relay.specs.Laws.{IsEventualSet};

use crate::is_eventual_set;
use price_tables::{DcPrice, Fare, Tables};
use span_base::{DcId, SetId, Word, read_name};
use std::alloc::Global;
use std::test::Fail;
use workload::{Demand, Mode, SetRule, Workload, World};

fn name(alloc: Global, text: &str) -> Result<Word, Fail>
    ensures { IfOk result IsName }
{
    let name = Word::from_string(String::from_str(alloc, text)?);
    read_name(name.as_bytes())?;
    Ok(name)
}

fn add_centre(
    alloc: Global,
    tables: &mut Tables,
    centre: &str,
    price: DcPrice,
) -> Result<(), Fail> {
    let name = name(alloc, centre)?;
    tables.add_dc(alloc, &name, &name, price)?;
    Ok(())
}

/// Adds links, each from a centre to another with the price of a KiB and the round trip.
fn add_links(
    alloc: Global,
    tables: &mut Tables,
    links: &[(&str, &str, u64, u32)],
) -> Result<(), Fail> {
    for (from, to, transfer, latency) in links {
        let fare = Fare {
            transfer: *transfer,
            latency: *latency,
        };
        tables.add_link(&name(alloc, from)?, &name(alloc, to)?, fare)?;
    }
    Ok(())
}

/// A dear centre, and a cheap one 20 ms away.
fn dear_and_cheap(alloc: Global) -> Result<Tables, Fail> {
    let mut tables = Tables::make(alloc)?;
    let dear = DcPrice {
        store: 10,
        get: 5,
        put: 7,
    };
    add_centre(alloc, &mut tables, "x", dear)?;
    add_centre(alloc, &mut tables, "y", DcPrice { store: 1, ..dear })?;
    let links = [
        ("x", "x", 0, 1),
        ("x", "y", 3, 20),
        ("y", "x", 3, 20),
        ("y", "y", 0, 1),
    ];
    add_links(alloc, &mut tables, &links)?;
    Ok(tables)
}

/// A dear centre, one 5 ms away at which gets are dear, and one 50 ms away, to which it costs much
/// from the first and little from the second.
fn near_and_far(alloc: Global) -> Result<Tables, Fail> {
    let mut tables = Tables::make(alloc)?;
    let cheap = DcPrice {
        store: 1,
        get: 0,
        put: 0,
    };
    add_centre(
        alloc,
        &mut tables,
        "a",
        DcPrice {
            store: 1000,
            ..cheap
        },
    )?;
    add_centre(alloc, &mut tables, "b", DcPrice { get: 50, ..cheap })?;
    add_centre(alloc, &mut tables, "c", cheap)?;
    let links = [
        ("a", "a", 0, 1),
        ("a", "b", 1, 5),
        ("a", "c", 9, 50),
        ("b", "a", 0, 5),
        ("b", "b", 0, 1),
        ("b", "c", 1, 50),
        ("c", "a", 0, 50),
        ("c", "b", 5, 50),
        ("c", "c", 0, 1),
    ];
    add_links(alloc, &mut tables, &links)?;
    Ok(tables)
}

/// One set with one member, in the first centre.
fn one_set(alloc: Global, rule: SetRule, gets: u64, puts: u64) -> Result<Workload, Fail>
    requires { 1 ≤ rule.providers }
{
    let member = Demand {
        dc: DcId(0),
        gets,
        puts,
    };
    let set = name(alloc, "s")?;
    let mut load = Workload::make(alloc);
    load.add_set(alloc, &set, rule)?;
    load.add_demand(&set, member)?;
    Ok(load)
}

/// The world of these tables and one set, which isn't strong.
fn world_of(tables: Tables, load: Workload) -> Result<World, Fail>
    ensures { IfOk result (λ world. IsEventualSet world 0) }
{
    if !load.are_in_centres(tables.count()) {
        return Err(Fail::new("a member in no centre"));
    }
    let world = World::make(tables, load)?;
    if world.sets() == 0 || !is_eventual_set(&world, SetId(0)) {
        return Err(Fail::new("a strong set"));
    }
    Ok(world)
}

/// A dear centre with the one member of a direct set, and a cheap one, each of its own provider.
pub(crate) fn two_centres(alloc: Global, providers: u8) -> Result<World, Fail>
    requires { 1 ≤ providers }
    ensures { IfOk result (λ world. IsEventualSet world 0) }
{
    let rule = SetRule {
        mode: Mode::Direct,
        f: 0,
        read_slo: 30,
        write_slo: 30,
        stored: 100,
        object: 2,
        providers,
    };
    world_of(dear_and_cheap(alloc)?, one_set(alloc, rule, 10, 4)?)
}

/// A relay set with one member, which reads cheaply where it isn't near enough to write to.
pub(crate) fn three_centres(alloc: Global) -> Result<World, Fail>
    ensures { IfOk result (λ world. IsEventualSet world 0) }
{
    let rule = SetRule {
        mode: Mode::Relay,
        f: 0,
        read_slo: 100,
        write_slo: 10,
        stored: 1,
        object: 1,
        providers: 1,
    };
    world_of(near_and_far(alloc)?, one_set(alloc, rule, 10, 10)?)
}
