//! Costs and faults of small worlds, by the program.
ghost use Rattle.std.specs.Prelude.{◌≤◌, IfOk};
ghost use Rattle.span_base.specs.Name.{IsName};

use crate::{Next, PolicyFault, PolicyReader, Rule, cost, fault_of, fits, push_policy};
use price_tables::{DcPrice, Fare, Tables};
use span_base::{DcId, DcSet, Listed, Near, Policy, SetId, Word, read_name};
use std::alloc::{AllocError, Global};
use std::test::Fail;
use workload::{Demand, Mode, SetRule, Workload, World};

fn name(alloc: Global, text: &str) -> Result<Word, Fail>
    ensures { IfOk result IsName }
{
    let name = Word::from_string(String::from_str(alloc, text)?);
    read_name(name.as_bytes())?;
    Ok(name)
}

fn add_centre(
    alloc: Global,
    tables: &mut Tables,
    centre: &str,
    provider: &str,
    price: DcPrice,
) -> Result<(), Fail> {
    tables.add_dc(alloc, &name(alloc, centre)?, &name(alloc, provider)?, price)?;
    Ok(())
}

/// Adds links, each from a centre to another with the price of a KiB and the round trip.
fn add_links(
    alloc: Global,
    tables: &mut Tables,
    links: &[(&str, &str, u64, u32)],
) -> Result<(), Fail> {
    for (from, to, transfer, latency) in links {
        let fare = Fare {
            transfer: *transfer,
            latency: *latency,
        };
        tables.add_link(&name(alloc, from)?, &name(alloc, to)?, fare)?;
    }
    Ok(())
}

/// A dear centre, and a cheap one 20 ms away.
fn dear_and_cheap(alloc: Global) -> Result<Tables, Fail> {
    let mut tables = Tables::make(alloc)?;
    let dear = DcPrice {
        store: 10,
        get: 5,
        put: 7,
    };
    add_centre(alloc, &mut tables, "x", "north", dear)?;
    let cheap = DcPrice { store: 1, ..dear };
    add_centre(alloc, &mut tables, "y", "south", cheap)?;
    let links = [
        ("x", "x", 0, 1),
        ("x", "y", 3, 20),
        ("y", "x", 3, 20),
        ("y", "y", 0, 1),
    ];
    add_links(alloc, &mut tables, &links)?;
    Ok(tables)
}

/// One set with one member, in the first centre.
fn one_set(alloc: Global, rule: SetRule) -> Result<Workload, Fail>
    requires { 1 ≤ rule.providers }
{
    let set = name(alloc, "s")?;
    let member = Demand {
        dc: DcId(0),
        gets: 10,
        puts: 4,
    };
    let mut load = Workload::make(alloc);
    load.add_set(alloc, &set, rule)?;
    load.add_demand(&set, member)?;
    Ok(load)
}

/// A dear centre with the one member, and a cheap one 20 ms away.
fn two_centres(alloc: Global) -> Result<World, Fail> {
    let rule = SetRule {
        mode: Mode::Direct,
        f: 0,
        read_slo: 30,
        write_slo: 30,
        stored: 100,
        object: 2,
        providers: 1,
    };
    let load = one_set(alloc, rule)?;
    let tables = dear_and_cheap(alloc)?;
    if !load.are_in_centres(tables.count()) {
        return Err(Fail::new("a member in no centre"));
    }
    Ok(World::make(tables, load)?)
}

/// A direct policy whose replicas have these bits, with the primary of the one member.
fn direct(alloc: Global, bits: u16, at: u8) -> Result<Policy, AllocError> {
    let near = Near {
        member: DcId(0),
        at: DcId(at),
    };
    Ok(Policy::Direct {
        f: 0,
        replicas: DcSet::from_bits(bits),
        primary: Listed::from_vec(vec![in alloc; near]?),
    })
}

#[test]
fn policies_of_two_centres(rt: HostRuntime) -> Result<(), Fail> {
    let world = two_centres(rt.alloc())?;
    assert!(rt; 0 < world.sets());
    for (bits, at, broken, want) in [
        (1, 0, None, 1078),
        (2, 1, None, 262),
        (3, 0, None, 1230),
        (2, 0, Some(Rule::Primary { member: DcId(0) }), 202),
    ] {
        let policy = direct(rt.alloc(), bits, at)?;
        assert_eq!(rt; fault_of(&world, SetId(0), &policy), broken);
        assert!(rt; fits(&world, SetId(0), &policy));
        assert_eq!(rt; cost(&world, SetId(0), &policy), want);
    }
    Ok(())
}

#[test]
fn printed_policy_is_read(rt: HostRuntime) -> Result<(), Fail> {
    let world = two_centres(rt.alloc())?;
    assert!(rt; 0 < world.sets());
    let policy = direct(rt.alloc(), 2, 1)?;
    let _count = world.centre_count();
    if fault_of(&world, SetId(0), &policy).is_some() {
        return Err(Fail::new("the policy isn't allowed"));
    }
    let mut text = String::new(rt.alloc());
    push_policy(&mut text, &world, &policy)?;
    assert_eq!(rt; text.as_str(), "replicas y\nprimary x y\n");
    let mut reader = PolicyReader::make(rt.alloc(), SetId(0))?;
    let bad = Err(PolicyFault::Bad { at: 9 });
    assert_eq!(rt; reader.take(&world, b"replicas y"), Ok(Next::More));
    assert_eq!(rt; reader.take(&world, b"primary x"), bad, "no primary");
    assert_eq!(rt;
        reader.take(&world, b"primary y y"),
        Err(PolicyFault::Member),
        "y is no member"
    );
    assert_eq!(rt; reader.take(&world, b"primary x y"), Ok(Next::Done));
    assert_eq!(rt; reader.into_policy(&world), Some(policy));
    Ok(())
}
