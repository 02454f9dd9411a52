use crate::{DcPrice, Fare, Pair, TableFault, Tables};
use span_base::{DcId, Word, read_name};
use std::alloc::{AllocError, Global};
use std::test::Fail;

const PRICE: DcPrice = DcPrice {
    store: 10,
    get: 5,
    put: 7,
};

fn word(alloc: Global, text: &str) -> Result<Word, AllocError> {
    Ok(Word::from_string(String::from_str(alloc, text)?))
}

/// Adds a centre of the provider `north`.
fn add(alloc: Global, tables: &mut Tables, name: &str, price: DcPrice) -> Result<DcId, TableFault> {
    let name = word(alloc, name).map_err(TableFault::NoMemory)?;
    let north = word(alloc, "north").map_err(TableFault::NoMemory)?;
    if read_name(name.as_bytes()).is_err() || read_name(north.as_bytes()).is_err() {
        return Err(TableFault::UnknownFrom);
    }
    tables.add_dc(alloc, &name, &north, price)
}

fn link(
    alloc: Global,
    tables: &mut Tables,
    from: &str,
    to: &str,
    latency: u32,
) -> Result<(), TableFault> {
    let from = word(alloc, from).map_err(TableFault::NoMemory)?;
    let to = word(alloc, to).map_err(TableFault::NoMemory)?;
    let fare = Fare {
        transfer: 3,
        latency,
    };
    tables.add_link(&from, &to, fare)
}

#[test]
fn centres_are_numbered_and_linked(rt: HostRuntime) -> Result<(), Fail> {
    let alloc = rt.alloc();
    let mut tables = Tables::make(alloc)?;
    assert_eq!(rt; add(alloc, &mut tables, "x", PRICE), Ok(DcId(0)));
    assert_eq!(rt; add(alloc, &mut tables, "y", PRICE), Ok(DcId(1)));
    assert_eq!(rt; link(alloc, &mut tables, "x", "x", 1), Ok(()));
    assert_eq!(rt; link(alloc, &mut tables, "x", "y", 20), Ok(()));
    let pair = Pair {
        from: DcId(1),
        to: DcId(0),
    };
    assert_eq!(rt; tables.first_missing(), Some(pair));
    Ok(())
}
