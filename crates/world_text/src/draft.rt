ghost use Rattle.std.specs.Prelude.{◌≡◌, ◌≢◌, ◌∷◌, [], Some, Ok, IfOk, IfErr, IfSome, IfNone, OnOk, map, length};
ghost use Rattle.price_tables.specs.Tables.{count_of};
ghost use Rattle.workload.specs.Gaps.{AreInCentres};
ghost use Rattle.world_text.specs.Steps.{Gives, IsDue};
ghost use Rattle.world_text.specs.Judged.{nothing_read, judged, first_judged, dc_judged, link_judged, set_judged, use_judged, with_providers};
ghost use Rattle.world_text.specs.ReadWorld.{completed, read_from, Reads};
ghost use Rattle.world_text.specs.Taken.{IsRefused};
ghost use Rattle.csv.specs.Records.{fields_of};

use crate::fault::{Refusal, WorldFault, bad};
use crate::kinds::{Kind, Version, kind_of, version_of};
use crate::rows::fields;
use crate::spelled::{counts_of, fare_of, name_of, price_of, rule_of};
use csv::ByteRecord;
use price_tables::Tables;
use span_base::{Cause, DcId};
use std::alloc::{AllocError, Global};
use workload::{Demand, Workload, World};

/// What the records of a world said so far. Each member of a set stands in one of the centres.
#[derive(Drop)]
pub(crate) struct Draft {
    /// None before the first record.
    pub(crate) version: Option<Version>,
    pub(crate) tables: Tables,
    pub(crate) load: Workload,
}

impl Draft {
    /// No record yet.
    pub(crate) fn make(alloc: Global) -> Result<Draft, AllocError>
        ensures { IfOk result (λ draft. draft ≡ nothing_read) }
    {
        Ok(Draft {
            version: None,
            tables: Tables::make(alloc)?,
            load: Workload::make(alloc),
        })
    }

    /// Takes the next record.
    fn take(&mut self, alloc: Global, fields: &[&[u8]]) -> Result<(), Refusal>
        requires { AreInCentres (count_of self.old.tables) self.old.load }
        ensures ok { OnOk result (judged self.old (map (λ f. f.now) fields.now) ≡ Ok self.new) }
        ensures fault { IfErr result (IsDue (judged self.old (map (λ f. f.now) fields.now))) }
        ensures in_centres { OnOk result (AreInCentres (count_of self.new.tables) self.new.load) }
    {
        let Some(version) = self.version else {
            return self.open(fields);
        };
        let [kind, fields @ ..] = fields else {
            return Err(bad(Cause::Kind));
        };
        match kind_of(kind)? {
            Kind::Centre => self.take_dc(alloc, fields),
            Kind::Link => self.take_link(alloc, fields),
            Kind::Set => self.take_set(alloc, version, fields),
            Kind::Use => self.take_use(alloc, fields),
        }
    }

    /// Takes the fields of `row` as the record at this line.
    pub(crate) fn take_row(
        &mut self,
        alloc: Global,
        line: u64,
        row: &ByteRecord,
    ) -> Result<(), WorldFault>
        requires { AreInCentres (count_of self.old.tables) self.old.load }
        ensures ok { OnOk result (judged self.old (fields_of row.now) ≡ Ok self.new) }
        ensures fault { IfErr result (IsRefused (Some (fields_of row.now) ∷ []) line self.old) }
        ensures in_centres { OnOk result (AreInCentres (count_of self.new.tables) self.new.load) }
    {
        let fields = fields(alloc, row)?;
        match self.take(alloc, fields.as_slice()) {
            Ok(()) => Ok(()),
            Err(refusal) => Err(refusal.at(line)),
        }
    }

    /// Takes the first record.
    fn open(&mut self, fields: &[&[u8]]) -> Result<(), Refusal>
        ensures ok { OnOk result (first_judged self.old (map (λ f. f.now) fields.now) ≡ Ok self.new) }
        ensures fault { IfErr result (IsDue (first_judged self.old (map (λ f. f.now) fields.now))) }
        ensures tables { OnOk result (self.new.tables ≡ self.old.tables) }
        ensures load { OnOk result (self.new.load ≡ self.old.load) }
    {
        self.version = Some(version_of(fields)?);
        Ok(())
    }

    /// Takes the fields of a centre after the kind.
    fn take_dc(&mut self, alloc: Global, fields: &[&[u8]]) -> Result<(), Refusal>
        requires { AreInCentres (count_of self.old.tables) self.old.load }
        ensures ok { OnOk result (dc_judged self.old (map (λ f. f.now) fields.now) ≡ Ok self.new) }
        ensures fault { IfErr result (IsDue (dc_judged self.old (map (λ f. f.now) fields.now))) }
        ensures in_centres { OnOk result (AreInCentres (count_of self.new.tables) self.new.load) }
    {
        let [name, provider, store, get, put] = fields else {
            return Err(bad(Cause::Fields));
        };
        let name = name_of(alloc, name)?;
        let provider = name_of(alloc, provider)?;
        let price = price_of(store, get, put)?;
        self.tables.add_dc(alloc, &name, &provider, price)?;
        Ok(())
    }

    /// Takes the fields of a link after the kind.
    fn take_link(&mut self, alloc: Global, fields: &[&[u8]]) -> Result<(), Refusal>
        requires { AreInCentres (count_of self.old.tables) self.old.load }
        ensures ok { OnOk result (link_judged self.old (map (λ f. f.now) fields.now) ≡ Ok self.new) }
        ensures fault { IfErr result (IsDue (link_judged self.old (map (λ f. f.now) fields.now))) }
        ensures in_centres { OnOk result (AreInCentres (count_of self.new.tables) self.new.load) }
    {
        let [from, to, transfer, latency] = fields else {
            return Err(bad(Cause::Fields));
        };
        let from = name_of(alloc, from)?;
        let to = name_of(alloc, to)?;
        let fare = fare_of(transfer, latency)?;
        self.tables.add_link(&from, &to, fare)?;
        Ok(())
    }

    /// Takes the fields of a set after the kind. In version 1 it asks for one provider.
    fn take_set(&mut self, alloc: Global, version: Version, fields: &[&[u8]]) -> Result<(), Refusal>
        requires { AreInCentres (count_of self.old.tables) self.old.load }
        ensures ok { OnOk result (set_judged version self.old (map (λ f. f.now) fields.now) ≡ Ok self.new) }
        ensures fault { IfErr result (IsDue (set_judged version self.old (map (λ f. f.now) fields.now))) }
        ensures in_centres { OnOk result (AreInCentres (count_of self.new.tables) self.new.load) }
    {
        let [
            name,
            mode,
            f,
            read_slo,
            write_slo,
            stored,
            object,
            rest @ ..,
        ] = fields
        else {
            return Err(bad(Cause::Fields));
        };
        let Some(providers) = providers_field(version, rest) else {
            return Err(bad(Cause::Fields));
        };
        let name = name_of(alloc, name)?;
        let rule = rule_of(mode, f, read_slo, write_slo, stored, object, providers)?;
        self.load.add_set(alloc, &name, rule)?;
        Ok(())
    }

    /// Takes the fields of a member of a set after the kind.
    fn take_use(&mut self, alloc: Global, fields: &[&[u8]]) -> Result<(), Refusal>
        requires { AreInCentres (count_of self.old.tables) self.old.load }
        ensures ok { OnOk result (use_judged self.old (map (λ f. f.now) fields.now) ≡ Ok self.new) }
        ensures fault { IfErr result (IsDue (use_judged self.old (map (λ f. f.now) fields.now))) }
        ensures in_centres { OnOk result (AreInCentres (count_of self.new.tables) self.new.load) }
    {
        let [set, centre, gets, puts] = fields else {
            return Err(bad(Cause::Fields));
        };
        let set = name_of(alloc, set)?;
        let centre = name_of(alloc, centre)?;
        let (gets, puts) = counts_of(gets, puts)?;
        let Some(dc) = self.tables.find(centre.as_bytes()) else {
            return Err(bad(Cause::Unknown));
        };
        self.load.add_demand(&set, Demand { dc, gets, puts })?;
        Ok(())
    }

    /// The world of all records.
    fn complete(self) -> Result<World, Refusal>
        requires { AreInCentres (count_of self.tables) self.load }
        ensures { Gives (completed self) result }
    {
        let Draft {
            version,
            tables,
            load,
        } = self;
        let Some(_) = version else {
            return Err(bad(Cause::Version));
        };
        Ok(World::make(tables, load)?)
    }

    /// The world of all records, where this line is one past them.
    pub(crate) fn complete_at(self, line: u64) -> Result<World, WorldFault>
        requires { AreInCentres (count_of self.tables) self.load }
        ensures { Reads (read_from line self []) result }
    {
        match self.complete() {
            Ok(world) => Ok(world),
            Err(refusal) => Err(refusal.at(line)),
        }
    }
}

/// The field of a set's providers, from the fields after the object. In version 1 there is none,
/// and one provider is asked for.
fn providers_field<'a>(version: Version, rest: &[&'a [u8]]) -> Option<&'a [u8]>
    ensures some { IfSome result (λ field. with_providers version (map (λ f. f.now) rest.now) ≡ field.now ∷ []) }
    ensures none { IfNone result (length (with_providers version (map (λ f. f.now) rest.now)) ≢ 1) }
{
    match (version, rest) {
        (Version::One, []) => Some(b"1".as_slice()),
        (Version::Two, [providers]) => Some(*providers),
        _ => None,
    }
}
