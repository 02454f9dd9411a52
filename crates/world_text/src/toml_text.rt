//! Worlds in TOML.

ghost use Rattle.std.specs.Prelude.{◌≡◌, ◌+◌, ◌<◌, ◌≤◌, ◌^◌, ◌∷◌, [], map, length, Some, Ok, Err, IfOk, IfErr, OnOk};
ghost use Rattle.price_tables.specs.Tables.{count_of};
ghost use Rattle.workload.specs.Gaps.{AreInCentres};
ghost use Rattle.csv.specs.Records.{fields_of};
ghost use Rattle.world_text.specs.Judged.{judged};
ghost use Rattle.toml.specs.View.{table_view};
ghost use Rattle.world_text.specs.ReadWorld.{Reads};
ghost use Rattle.world_text.specs.Toml.{document_says, toml_says};
ghost use Rattle.world_text.specs.Taken.{Leads, IsRefused, entry_of, version_in, array_entries};

use crate::draft::Draft;
use crate::fault::WorldFault;
use crate::kinds::{Kind, Version};
use crate::toml_tables::{Arrays, arrays_of, fill_record, first_record};
use csv::ByteRecord;
use span_base::Cause;
use std::alloc::{AllocError, Global};
use std::str;
use toml::{Table, Value};
use workload::World;

/// The world of a text in TOML, of version 1 or 2, or its first fault.
pub fn read_toml(alloc: Global, text: &[u8]) -> Result<World, WorldFault>
    ensures { Reads (toml_says text.now) result }
{
    let document = document_of(alloc, text)?;
    read_document(alloc, &document)
}

/// The document of a text.
pub(crate) fn document_of(alloc: Global, text: &[u8]) -> Result<Table, WorldFault>
    ensures document { IfOk result (λ document. toml_says text.now ≡ document_says (Some (table_view document))) }
    ensures fault { IfErr result (λ e. Reads (toml_says text.now) (Err e)) }
{
    let Ok(text) = str::from_utf8(text) else {
        return Err(whole(Cause::Toml));
    };
    match toml::table_from_str(alloc, text) {
        Ok(document) => Ok(document),
        Err(error) if error.is_memory() => Err(WorldFault::NoMemory(AllocError)),
        Err(_) => Err(whole(Cause::Toml)),
    }
}

/// The fault of a whole text: it stands at no record's line.
fn whole(cause: Cause) -> WorldFault
    ensures { result ≡ WorldFault.Bad 0 cause }
{
    WorldFault::Bad { line: 0, cause }
}

/// The world of a document. Its records are those of its tables, in the order of their kinds.
fn read_document(alloc: Global, document: &Table) -> Result<World, WorldFault>
    ensures { Reads (document_says (Some (table_view document.now))) result }
{
    let Some(arrays) = arrays_of(document) else {
        return Err(whole(Cause::Key));
    };
    let mut reading = Reading {
        draft: Draft::make(alloc)?,
        line: 1,
        row: first_record(alloc, document)?,
    };
    reading.take_row(alloc)?;
    reading.take_arrays(alloc, arrays)?;
    reading.draft.complete_at(reading.line)
}

/// How far a document was read.
#[derive(Drop)]
struct Reading {
    draft: Draft,
    /// The line of the next record.
    line: u64,
    /// The record at hand.
    row: ByteRecord,
}

impl Reading {
    /// Takes the record at hand.
    fn take_row(&mut self, alloc: Global) -> Result<(), WorldFault>
        requires in_centres { AreInCentres (count_of self.old.draft.tables) self.old.draft.load }
        requires room { self.old.line < 2 ^ 63 }
        ensures ok { OnOk result (judged self.old.draft (fields_of self.old.row) ≡ Ok self.new.draft) }
        ensures line { OnOk result (self.new.line ≡ self.old.line + 1) }
        ensures fault { IfErr result (IsRefused (Some (fields_of self.old.row) ∷ []) self.old.line self.old.draft) }
        ensures in_centres { OnOk result (AreInCentres (count_of self.new.draft.tables) self.new.draft.load) }
    {
        self.draft.take_row(alloc, self.line, &self.row)?;
        self.line += 1;
        Ok(())
    }

    /// Takes all tables, in the order of their kinds, by the keys of the version that the first
    /// record told.
    fn take_arrays(&mut self, alloc: Global, arrays: Arrays<'_>) -> Result<(), WorldFault>
        requires in_centres { AreInCentres (count_of self.old.draft.tables) self.old.draft.load }
        requires room { self.old.line ≤ 2 ^ 62 }
        ensures ok { OnOk result (Leads (array_entries (version_in self.old.draft) arrays.entry) self.old.line self.old.draft self.new.line self.new.draft) }
        ensures fault { IfErr result (IsRefused (array_entries (version_in self.old.draft) arrays.entry) self.old.line self.old.draft) }
        ensures in_centres { OnOk result (AreInCentres (count_of self.new.draft.tables) self.new.draft.load) }
    {
        let version = self.draft.version.unwrap_or(Version::One);
        self.take_tables(alloc, version, Kind::Centre, arrays.centres)?;
        self.take_tables(alloc, version, Kind::Link, arrays.links)?;
        self.take_tables(alloc, version, Kind::Set, arrays.sets)?;
        self.take_tables(alloc, version, Kind::Use, arrays.uses)
    }

    /// Takes the tables of a kind.
    fn take_tables(
        &mut self,
        alloc: Global,
        version: Version,
        kind: Kind,
        tables: &[Value],
    ) -> Result<(), WorldFault>
        requires in_centres { AreInCentres (count_of self.old.draft.tables) self.old.draft.load }
        requires room { self.old.line + length tables.now ≤ 2 ^ 63 }
        ensures ok { OnOk result (Leads (map (entry_of version kind) tables.now) self.old.line self.old.draft self.new.line self.new.draft) }
        ensures line { OnOk result (self.new.line ≡ self.old.line + length tables.now) }
        ensures fault { IfErr result (IsRefused (map (entry_of version kind) tables.now) self.old.line self.old.draft) }
        ensures in_centres { OnOk result (AreInCentres (count_of self.new.draft.tables) self.new.draft.load) }
    {
        for table in tables {
            if !fill_record(version, kind, table, &mut self.row)? {
                return Err(WorldFault::Bad {
                    line: self.line,
                    cause: Cause::Key,
                });
            }
            self.take_row(alloc)?;
        }
        Ok(())
    }
}
