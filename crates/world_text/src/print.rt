//! A world is printed record by record into one buffer.

ghost use Rattle.std.specs.Prelude.{◌≡◌, ◌<◌, [], ◌∷◌, map, length, Ok, IfOk, OnOk};
ghost use Rattle.csv.specs.Writing as csv;
ghost use Rattle.workload.specs.World.{centre_count, centre_of, fare_of, set_of, members_of};
ghost use Rattle.workload.specs.World.{name_of};
ghost use Rattle.workload.specs.Modes.{word_of};
ghost use Rattle.world_text.specs.Records.{printed_version, version_record, centre_record, link_record, links_from, link_records, set_record, use_record, use_records, world_text};
ghost use Rattle.world_text.specs.ReadWorld.{csv_says};
ghost use Rattle.world_text.specs.Written.{IsBetween, Adds, written, in_version};

use crate::kinds::Version;
use csv::{Writer, WriterBuilder};
use itoa::Buffer;
use span_base::{Bytes, DcId, SetId};
use std::alloc::{AllocError, Global};
use workload::{Demand, World};

/// The text of a world in CSV: of version 1 where every set asks for one provider, else of version
/// 2. First its centres, then the links in the order of their two centres, the sets, and the
/// members of each set in order.
pub fn print_csv(alloc: Global, world: &World) -> Result<Bytes, AllocError>
    ensures text { IfOk result (λ bytes. bytes ≡ world_text world.now) }
    ensures read { IfOk result (λ bytes. csv_says bytes ≡ Ok world.now) }
{
    let version = printed_version(world);
    let mut text = WriterBuilder::new()
        .flexible(true)
        .from_writer(Vec::new(alloc));
    print_version(&mut text, version)?;
    print_centres(&mut text, world)?;
    print_links(&mut text, world)?;
    print_sets(&mut text, version, world)?;
    print_members(&mut text, world)?;
    text_is_read(world);
    into_bytes(text)
}

/// A law: the text of a world says that world.
fn text_is_read(world: &World)
    ensures { csv_says (world_text world.now) ≡ Ok world.now }
{
    let _count = world.centre_count();
}

/// The version in which a world is printed.
fn printed_version(world: &World) -> Version
    ensures { result ≡ printed_version world.now }
{
    for set in 0..world.sets() {
        if world.rule(SetId(set)).providers != 1 {
            return Version::Two;
        }
    }
    Version::One
}

fn print_version(text: &mut Writer<Vec<u8>>, version: Version) -> Result<(), AllocError>
    requires { IsBetween text.old }
    ensures { OnOk result (Adds text.old text.new (version_record version ∷ [])) }
{
    let number = match version {
        Version::One => b"1".as_slice(),
        Version::Two => b"2".as_slice(),
    };
    add(text, &[b"span".as_slice(), number])
}

fn print_centres(text: &mut Writer<Vec<u8>>, world: &World) -> Result<(), AllocError>
    requires { IsBetween text.old }
    ensures { OnOk result (Adds text.old text.new (map centre_record world.now.centres)) }
{
    for dc in 0..world.centre_count() {
        print_centre(text, world, DcId(dc))?;
    }
    Ok(())
}

fn print_centre(text: &mut Writer<Vec<u8>>, world: &World, dc: DcId) -> Result<(), AllocError>
    requires between { IsBetween text.old }
    requires within { dc.0 < centre_count world.now }
    ensures { OnOk result (Adds text.old text.new (centre_record (centre_of world.now dc.0) ∷ [])) }
{
    let price = world.price(dc);
    let (mut store, mut get, mut put) = (Buffer::new(), Buffer::new(), Buffer::new());
    let record = [
        b"dc".as_slice(),
        world.name(dc).as_bytes(),
        world.provider(dc).as_bytes(),
        store.format(price.store).as_bytes(),
        get.format(price.get).as_bytes(),
        put.format(price.put).as_bytes(),
    ];
    add(text, &record)
}

fn print_links(text: &mut Writer<Vec<u8>>, world: &World) -> Result<(), AllocError>
    requires { IsBetween text.old }
    ensures { OnOk result (Adds text.old text.new (link_records world.now)) }
{
    for from in 0..world.centre_count() {
        print_links_from(text, world, DcId(from))?;
    }
    Ok(())
}

fn print_links_from(text: &mut Writer<Vec<u8>>, world: &World, from: DcId) -> Result<(), AllocError>
    requires between { IsBetween text.old }
    requires within { from.0 < centre_count world.now }
    ensures { OnOk result (Adds text.old text.new (links_from world.now from.0)) }
{
    for to in 0..world.centre_count() {
        print_link(text, world, from, DcId(to))?;
    }
    Ok(())
}

fn print_link(
    text: &mut Writer<Vec<u8>>,
    world: &World,
    from: DcId,
    to: DcId,
) -> Result<(), AllocError>
    requires between { IsBetween text.old }
    requires from { from.0 < centre_count world.now }
    requires to { to.0 < centre_count world.now }
    ensures { OnOk result (Adds text.old text.new
        (link_record (name_of world.now from.0) (name_of world.now to.0) (fare_of world.now from.0 to.0) ∷ [])) }
{
    let fare = world.fare(from, to);
    let (mut transfer, mut latency) = (Buffer::new(), Buffer::new());
    let record = [
        b"link".as_slice(),
        world.name(from).as_bytes(),
        world.name(to).as_bytes(),
        transfer.format(fare.transfer).as_bytes(),
        latency.format(fare.latency).as_bytes(),
    ];
    add(text, &record)
}

fn print_sets(text: &mut Writer<Vec<u8>>, version: Version, world: &World) -> Result<(), AllocError>
    requires { IsBetween text.old }
    ensures { OnOk result (Adds text.old text.new (map (set_record version) world.now.sets)) }
{
    for set in 0..world.sets() {
        print_set(text, version, world, SetId(set))?;
    }
    Ok(())
}

fn print_set(
    text: &mut Writer<Vec<u8>>,
    version: Version,
    world: &World,
    set: SetId,
) -> Result<(), AllocError>
    requires between { IsBetween text.old }
    requires within { set.0 < length world.now.sets }
    ensures { OnOk result (Adds text.old text.new (set_record version (set_of world.now set.0) ∷ [])) }
{
    let rule = world.rule(set);
    let (mut f, mut read_slo, mut write_slo) = (Buffer::new(), Buffer::new(), Buffer::new());
    let (mut stored, mut object, mut providers) = (Buffer::new(), Buffer::new(), Buffer::new());
    let record = [
        b"set".as_slice(),
        world.set_name(set).as_bytes(),
        rule.mode.word().as_bytes(),
        f.format(rule.f).as_bytes(),
        read_slo.format(rule.read_slo).as_bytes(),
        write_slo.format(rule.write_slo).as_bytes(),
        stored.format(rule.stored).as_bytes(),
        object.format(rule.object).as_bytes(),
        providers.format(rule.providers).as_bytes(),
    ];
    add_set(text, version, &record)
}

/// Adds the record of a set to the text. Its last field, how many providers the set asks for, is
/// left out in version 1.
fn add_set(text: &mut Writer<Vec<u8>>, version: Version, fields: &[&[u8]]) -> Result<(), AllocError>
    requires between { IsBetween text.old }
    requires nine { length fields.now ≡ 9 }
    ensures { OnOk result (Adds text.old text.new (in_version version (map (λ f. f.now) fields.now) ∷ [])) }
{
    match version {
        Version::One => add(text, &fields[..8]),
        Version::Two => add(text, fields),
    }
}

fn print_members(text: &mut Writer<Vec<u8>>, world: &World) -> Result<(), AllocError>
    requires { IsBetween text.old }
    ensures { OnOk result (Adds text.old text.new (use_records world.now)) }
{
    for set in 0..world.sets() {
        print_members_of(text, world, SetId(set))?;
    }
    Ok(())
}

fn print_members_of(text: &mut Writer<Vec<u8>>, world: &World, set: SetId) -> Result<(), AllocError>
    requires between { IsBetween text.old }
    requires within { set.0 < length world.now.sets }
    ensures { OnOk result (Adds text.old text.new
        (map (use_record world.now (set_of world.now set.0)) (members_of world.now set.0))) }
{
    for member in world.members(set) {
        print_use(text, world, set, member)?;
    }
    Ok(())
}

fn print_use(
    text: &mut Writer<Vec<u8>>,
    world: &World,
    set: SetId,
    member: &Demand,
) -> Result<(), AllocError>
    requires between { IsBetween text.old }
    requires set { set.0 < length world.now.sets }
    requires dc { member.now.dc.0 < centre_count world.now }
    ensures { OnOk result (Adds text.old text.new (use_record world.now (set_of world.now set.0) member.now ∷ [])) }
{
    let (mut gets, mut puts) = (Buffer::new(), Buffer::new());
    let record = [
        b"use".as_slice(),
        world.set_name(set).as_bytes(),
        world.name(member.dc).as_bytes(),
        gets.format(member.gets).as_bytes(),
        puts.format(member.puts).as_bytes(),
    ];
    add(text, &record)
}

/// Adds a record to the text. Only want of memory can keep a writer into memory from it.
fn add(text: &mut Writer<Vec<u8>>, fields: &[&[u8]]) -> Result<(), AllocError>
    requires { IsBetween text.old }
    ensures { OnOk result (Adds text.old text.new (map (λ f. f.now) fields.now ∷ [])) }
{
    match text.write_fields(fields) {
        Ok(()) => Ok(()),
        Err(_) => Err(AllocError),
    }
}

/// The bytes of the text.
fn into_bytes(text: Writer<Vec<u8>>) -> Result<Bytes, AllocError>
    ensures { IfOk result (λ bytes. bytes ≡ written text) }
{
    match text.into_inner() {
        Ok(bytes) => Ok(Bytes::from_vec(bytes)),
        Err(_) => Err(AllocError),
    }
}
