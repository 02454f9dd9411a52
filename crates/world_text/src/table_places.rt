use crate::kinds::Kind;
use crate::toml_tables::arrays_of;
use crate::toml_text::document_of;
use std::alloc::Global;

/// Where a table stands in a document: the key of its array, and its place in it, counted from 1.
#[derive(Clone, Copy, Debug, PartialEq, Eq)]
pub struct TablePlace {
    pub key: &'static str,
    pub number: u64,
}

/// The table that the record at a line stands for, in a text in TOML. None where there is none, as
/// for `span` at line 1, and where there is no memory to look.
pub fn table_place(alloc: Global, text: &[u8], line: u64) -> Option<TablePlace> {
    let document = document_of(alloc, text).ok()?;
    let arrays = arrays_of(&document)?;
    let mut before: u64 = 1;
    for (kind, tables) in [
        (Kind::Centre, arrays.centres),
        (Kind::Link, arrays.links),
        (Kind::Set, arrays.sets),
        (Kind::Use, arrays.uses),
    ] {
        let number = line.saturating_sub(before);
        if 0 < number && number <= tables.len() as u64 {
            return Some(TablePlace {
                key: kind.word(),
                number,
            });
        }
        before = before.saturating_add(tables.len() as u64);
    }
    None
}
