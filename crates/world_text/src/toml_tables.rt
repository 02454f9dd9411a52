//! The tables of a world's document, seen as records.

ghost use Rattle.std.specs.Prelude.{◌≡◌, ◌==◌, if◌then◌else◌, ◌≤◌, map, codes, option_map, Some, None, IfOk, IfSome, IfNone, IsSome, is_some};
ghost use Rattle.csv.specs.Records.{fields_of};
ghost use Rattle.std.specs.List.{list_all};
ghost use Rattle.toml.specs.Data.{as_table, get_member};
ghost use Rattle.toml.specs.View.{view, table_view, items_view};
ghost use Rattle.world_text.specs.Toml.{key_count, known_keys, keys_of, field_at, how_many, first_record, at_top, tables_at, tables_in, document_entries};
ghost use Rattle.world_text.specs.Taken.{key_of, entry_of, tables_entries};

use crate::kinds::{Kind, Version};
use csv::ByteRecord;
use itoa::Buffer;
use std::alloc::{AllocError, Global};
use toml::{Table, Value};

/// A key of a table, and the kind of value that makes a field: a string, or an integer.
#[derive(Clone, Copy, Debug)]
enum Field {
    Text(&'static str),
    Number(&'static str),
}

/// The keys of a table of a kind, in the order of the fields of a record.
fn keys_of(version: Version, kind: Kind) -> &'static [Field]
    ensures { map key_of result.now ≡ keys_of version kind }
{
    match kind {
        Kind::Centre => &[
            Field::Text("name"),
            Field::Text("provider"),
            Field::Number("store"),
            Field::Number("get"),
            Field::Number("put"),
        ],
        Kind::Link => &[
            Field::Text("from"),
            Field::Text("to"),
            Field::Number("transfer"),
            Field::Number("latency"),
        ],
        Kind::Set => set_keys(version),
        Kind::Use => &[
            Field::Text("set"),
            Field::Text("dc"),
            Field::Number("gets"),
            Field::Number("puts"),
        ],
    }
}

/// The keys of a set.
fn set_keys(version: Version) -> &'static [Field]
    ensures { map key_of result.now ≡ keys_of version Kind.Set }
{
    match version {
        Version::One => &[
            Field::Text("name"),
            Field::Text("mode"),
            Field::Number("f"),
            Field::Number("read"),
            Field::Number("write"),
            Field::Number("stored"),
            Field::Number("object"),
        ],
        Version::Two => &[
            Field::Text("name"),
            Field::Text("mode"),
            Field::Number("f"),
            Field::Number("read"),
            Field::Number("write"),
            Field::Number("stored"),
            Field::Number("object"),
            Field::Number("providers"),
        ],
    }
}

/// The value that a table has at a key.
fn value_at<'a>(table: &'a Table, key: &str) -> Option<&'a Value>
    ensures { option_map (λ v. view v.now) result ≡ get_member key.now (table_view table.now) }
{
    table.get(key)
}

/// The field that a table has at a key: the bytes of a string, or an integer in decimal, which
/// `digits` keeps. None where the value is of another kind, or there is none.
fn field_at<'a>(table: &'a Table, key: Field, digits: &'a mut Buffer) -> Option<&'a [u8]>
    ensures { option_map (λ f. f.now) result ≡ field_at (table_view table.now) (key_of key) }
{
    match key {
        Field::Text(key) => Some(value_at(table, key)?.as_str()?.as_bytes()),
        Field::Number(key) => {
            let number = value_at(table, key)?.as_integer()?;
            Some(digits.format(number).as_bytes())
        }
    }
}

/// Makes `row` the record of a value that should be a table of a kind. False where it has none: it
/// is no table, or its keys aren't exactly those of the kind, each with its kind of value.
pub(crate) fn fill_record(
    version: Version,
    kind: Kind,
    value: &Value,
    row: &mut ByteRecord,
) -> Result<bool, AllocError>
    ensures { IfOk result (λ whole. entry_of version kind value.now ≡ (if whole then Some (fields_of row.new) else None)) }
{
    let Some(table) = value.as_table() else {
        return Ok(false);
    };
    let keys = keys_of(version, kind);
    if table.len() != keys.len() {
        return Ok(false);
    }
    row.clear();
    row.push_field(kind.word().as_bytes())?;
    let mut digits = Buffer::new();
    for key in keys {
        let Some(field) = field_at(table, *key, &mut digits) else {
            return Ok(false);
        };
        row.push_field(field)?;
    }
    Ok(true)
}

/// The first record: `span` and its number, or the word alone where `span` is no integer.
pub(crate) fn first_record(alloc: Global, document: &Table) -> Result<ByteRecord, AllocError>
    ensures { IfOk result (λ row. fields_of row ≡ first_record (get_member (codes "span") (table_view document.now))) }
{
    let mut row = ByteRecord::new(alloc);
    row.push_field(b"span")?;
    let mut digits = Buffer::new();
    if let Some(number) = field_at(document, Field::Number("span"), &mut digits) {
        row.push_field(number)?;
    }
    Ok(row)
}

/// The tables of a document, by their kinds.
#[derive(Clone, Copy)]
pub(crate) struct Arrays<'a> {
    pub(crate) centres: &'a [Value],
    pub(crate) links: &'a [Value],
    pub(crate) sets: &'a [Value],
    pub(crate) uses: &'a [Value],
}

/// The tables of a document. None where it has an unknown top key, or one that isn't an array of
/// tables alone.
pub(crate) fn arrays_of(document: &Table) -> Option<Arrays<'_>>
    ensures some { IfSome result (λ arrays. document_entries (table_view document.now) ≡ Some (tables_entries (table_view document.now) arrays)) }
    ensures none { IfNone result (document_entries (table_view document.now) ≡ None) }
{
    if !has_known_keys(document) {
        return None;
    }
    Some(Arrays {
        centres: tables_at(document, Kind::Centre)?,
        links: tables_at(document, Kind::Link)?,
        sets: tables_at(document, Kind::Set)?,
        uses: tables_at(document, Kind::Use)?,
    })
}

/// The tables of a kind: none without its top key. None where that isn't an array of tables alone.
fn tables_at(document: &Table, kind: Kind) -> Option<&[Value]>
    ensures some { IfSome result (λ values. (tables_at (at_top (table_view document.now) kind) ≡ tables_in (items_view values.now)) × IsSome (tables_in (items_view values.now))) }
    ensures none { IfNone result (tables_at (at_top (table_view document.now) kind) ≡ None) }
{
    let Some(value) = value_at(document, kind.word()) else {
        return Some(&[]);
    };
    let values = value.as_array()?.as_slice();
    are_tables(values).then_some(values)
}

/// Whether each of these values is a table.
fn are_tables(values: &[Value]) -> bool
    ensures { result ≡ list_all (λ value. is_some (as_table (view value))) values.now }
{
    values.iter().all(|value| value.is_table())
}

/// Whether each top key is one that a world may have.
fn has_known_keys(document: &Table) -> bool
    ensures { result ≡ (key_count (table_view document.now) == known_keys (table_view document.now)) }
{
    let known = count_at(document, "span")
        + count_at(document, Kind::Centre.word())
        + count_at(document, Kind::Link.word())
        + count_at(document, Kind::Set.word())
        + count_at(document, Kind::Use.word());
    document.len() == known
}

/// How many values a document has at a key, 0 or 1.
fn count_at(document: &Table, key: &str) -> usize
    ensures count { result ≡ how_many (get_member key.now (table_view document.now)) }
    ensures one { result ≤ 1 }
{
    usize::from(value_at(document, key).is_some())
}
