//! Plans of a small world, whole and broken, by what is written and how the check ends.
ghost use Rattle.std.specs.Prelude.{◌≤◌, IfOk};
ghost use Rattle.span_base.specs.Name.{IsName};

use crate::{CheckFault, check_plan};
use price_tables::{DcPrice, Fare, Tables};
use span_base::{Bytes, Cause, DcId, FileEntry, MemShelf, MemSink, Word, read_name};
use std::alloc::Global;
use std::test::Fail;
use workload::{Demand, Mode, SetRule, Workload, World};

fn name(alloc: Global, text: &str) -> Result<Word, Fail>
    ensures { IfOk result IsName }
{
    let name = Word::from_string(String::from_str(alloc, text)?);
    read_name(name.as_bytes())?;
    Ok(name)
}

/// A dear centre, and a cheap one 20 ms away.
fn dear_and_cheap(alloc: Global) -> Result<Tables, Fail> {
    let mut tables = Tables::make(alloc)?;
    let dear = DcPrice {
        store: 10,
        get: 5,
        put: 7,
    };
    let cheap = DcPrice { store: 1, ..dear };
    tables.add_dc(alloc, &name(alloc, "x")?, &name(alloc, "north")?, dear)?;
    tables.add_dc(alloc, &name(alloc, "y")?, &name(alloc, "south")?, cheap)?;
    for (from, to, transfer, latency) in [
        ("x", "x", 0, 1),
        ("x", "y", 3, 20),
        ("y", "x", 3, 20),
        ("y", "y", 0, 1),
    ] {
        let fare = Fare { transfer, latency };
        tables.add_link(&name(alloc, from)?, &name(alloc, to)?, fare)?;
    }
    Ok(tables)
}

/// The two centres, and one set with one member in the dear one.
fn two_centres(alloc: Global) -> Result<World, Fail> {
    let rule = SetRule {
        mode: Mode::Direct,
        f: 0,
        read_slo: 30,
        write_slo: 30,
        stored: 100,
        object: 2,
        providers: 1,
    };
    let set = name(alloc, "s")?;
    let member = Demand {
        dc: DcId(0),
        gets: 10,
        puts: 4,
    };
    let mut load = Workload::make(alloc);
    load.add_set(alloc, &set, rule)?;
    load.add_demand(&set, member)?;
    let tables = dear_and_cheap(alloc)?;
    if !load.are_in_centres(tables.count()) {
        return Err(Fail::new("a member in no centre"));
    }
    Ok(World::make(tables, load)?)
}

fn shelf_of(alloc: Global, text: &str) -> Result<MemShelf, Fail> {
    let mut files = Vec::new(alloc);
    files.push(FileEntry {
        name: name(alloc, "p")?,
        bytes: Bytes::from_vec(text.as_bytes().to_vec(alloc)?),
    })?;
    Ok(MemShelf::make(files, Vec::new(alloc)))
}

#[test]
fn plans_of_two_centres(rt: HostRuntime) -> Result<(), Fail> {
    let alloc = rt.alloc();
    let world = two_centres(alloc)?;
    let whole = "set s least 262\nplan ok\n";
    let refused = |line, cause| Err(CheckFault::Refused { line, cause });
    for (tree, cost, end, want, told) in [
        ("l 1 0:262 1:212 2:152\n", "262", "end\n", Ok(()), whole),
        (
            "b 1\nl 1 0:1078 1:1028 2:968\nl 1 0:110 1:60\n",
            "262",
            "end\n",
            Ok(()),
            whole,
        ),
        (
            "l 1 0:261 1:212 2:152\n",
            "262",
            "end\n",
            refused(3, Cause::OpenLeaf),
            "",
        ),
        (
            "b 1\nl 1 0:1078 1:1028 2:968\n",
            "262",
            "end\n",
            refused(5, Cause::TooShort),
            "",
        ),
        (
            "l 1 0:262 1:212 2:152\nl 1 0:262 1:212 2:152\n",
            "262",
            "end\n",
            refused(4, Cause::TooLong),
            "",
        ),
        (
            "b 1\nb 1\n",
            "262",
            "end\n",
            refused(4, Cause::VarTwice),
            "",
        ),
        (
            "l 1 5:1\n",
            "262",
            "end\n",
            refused(3, Cause::RowUnknown),
            "",
        ),
        (
            "l 1 0:262 1:212 2:152\n",
            "261",
            "end\n",
            refused(4, Cause::Cost),
            "",
        ),
        (
            "l 1 0:262 1:212 2:152\n",
            "262",
            "",
            Err(CheckFault::Bad {
                line: 7,
                cause: Cause::End,
            }),
            "set s least 262\n",
        ),
        (
            "l 1 0:262 1:212 2:152\n",
            "262",
            "end\nx",
            Err(CheckFault::Bad {
                line: 8,
                cause: Cause::End,
            }),
            "set s least 262\n",
        ),
        (
            "l 1 0:262 1:212 2:152\n",
            "262",
            "set s direct 4\n",
            refused(7, Cause::Set),
            "set s least 262\n",
        ),
    ] {
        let text = format!(in alloc;
            "span-plan 1\nset s direct 4\n{tree}result complete {cost}\nreplicas y\nprimary x y\n{end}"
        )?;
        let mut shelf = shelf_of(alloc, text.as_str())?;
        let mut out = MemSink::make(alloc, Vec::new(alloc));
        let seen = check_plan(alloc, &world, &mut shelf, "p", &mut out);
        assert_eq!(rt; seen, want, "{text}");
        assert_eq!(rt; out.bytes(), told.as_bytes(), "{text}");
    }
    Ok(())
}
