use crate::{Demand, Mode, SetRule, Workload, World};
use price_tables::{DcPrice, Fare, Tables};
use span_base::{DcId, SetId, Word, read_name};
use std::alloc::{AllocError, Global};
use std::test::Fail;

const RULE: SetRule = SetRule {
    mode: Mode::Direct,
    f: 0,
    read_slo: 30,
    write_slo: 30,
    stored: 100,
    object: 2,
    providers: 1,
};

const MEMBER: Demand = Demand {
    dc: DcId(0),
    gets: 10,
    puts: 4,
};

const FAR: Fare = Fare {
    transfer: 3,
    latency: 20,
};

/// The links of two centres: their ends, the price of a KiB and the round trip.
const LINKS: [(&str, &str, u64, u32); 4] = [
    ("x", "x", 0, 1),
    ("x", "y", 3, 20),
    ("y", "x", 3, 20),
    ("y", "y", 0, 1),
];

fn word(alloc: Global, text: &str) -> Result<Word, AllocError> {
    Ok(Word::from_string(String::from_str(alloc, text)?))
}

fn add_centre(
    alloc: Global,
    tables: &mut Tables,
    name: &str,
    provider: &str,
    store: u64,
) -> Result<(), Fail> {
    let name = word(alloc, name)?;
    let provider = word(alloc, provider)?;
    if read_name(name.as_bytes()).is_err() || read_name(provider.as_bytes()).is_err() {
        return Err(Fail::new("no name"));
    }
    let price = DcPrice {
        store,
        get: 5,
        put: 7,
    };
    tables.add_dc(alloc, &name, &provider, price)?;
    Ok(())
}

/// A dear centre and a cheap one 20 ms away.
fn two_centres(alloc: Global) -> Result<Tables, Fail> {
    let mut tables = Tables::make(alloc)?;
    add_centre(alloc, &mut tables, "x", "north", 10)?;
    add_centre(alloc, &mut tables, "y", "south", 1)?;
    for (from, to, transfer, latency) in LINKS {
        let fare = Fare { transfer, latency };
        tables.add_link(&word(alloc, from)?, &word(alloc, to)?, fare)?;
    }
    Ok(tables)
}

/// One set with its member in the first centre.
fn one_set(alloc: Global) -> Result<Workload, Fail> {
    let name = word(alloc, "s")?;
    read_name(name.as_bytes())?;
    let mut load = Workload::make(alloc);
    load.add_set(alloc, &name, RULE)?;
    load.add_demand(&name, MEMBER)?;
    Ok(load)
}

fn world_of(tables: Tables, load: Workload) -> Result<World, Fail> {
    if !load.are_in_centres(tables.count()) {
        return Err(Fail::new("a member in no centre"));
    }
    Ok(World::make(tables, load)?)
}

#[test]
fn a_world_of_two_centres(rt: HostRuntime) -> Result<(), Fail> {
    let alloc = rt.alloc();
    let world = world_of(two_centres(alloc)?, one_set(alloc)?)?;
    assert!(rt; world.centre_count() == 2 && world.sets() == 1);
    assert_eq!(rt; world.fare(DcId(0), DcId(1)), FAR);
    assert_eq!(rt; world.price(DcId(1)).store, 1);
    assert_eq!(rt; world.rule(SetId(0)), RULE);
    assert!(rt; world.members(SetId(0)) == [MEMBER].as_slice());
    Ok(())
}
