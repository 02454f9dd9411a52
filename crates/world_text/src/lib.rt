//! Worlds as text.
#![tactic(auto)]

mod draft;
mod fault;
mod kinds;
mod laws;
mod print;
mod read;
mod round_trip;
mod rows;
mod spelled;
mod table_places;
mod toml_tables;
mod toml_text;

pub use fault::WorldFault;
pub use laws::{records_of_two_centres, worked_world_is_read};
pub use print::print_csv;
pub use read::read_csv;
pub use round_trip::{
    documents_are_read, printed_worlds_are_read, records_are_in_their_text, said_worlds_are_whole,
};
pub use table_places::{TablePlace, table_place};
pub use toml_text::read_toml;

#[cfg(test)]
mod print_tests;
