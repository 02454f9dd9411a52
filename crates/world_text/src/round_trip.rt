ghost use Rattle.std.specs.Prelude.{◌≡◌, ℕ, List, All, Some, Ok};
ghost use Rattle.std.specs.List.{flat_map};
ghost use Rattle.csv.specs.Writing.{row_text, default_writer};
ghost use Rattle.workload.specs.World.{Lists, IsComplete, IsNamed};
ghost use Rattle.world_text.specs.Records.{Record, records_in, records_of};
ghost use Rattle.world_text.specs.ReadWorld.{read_records, csv_says};
ghost use Rattle.world_text.specs.Toml.{document_says, toml_says};
ghost use Rattle.world_text.specs.Document.{document_of};
ghost use Rattle.world_text.specs.Written.{IsReadBack};

/// A text that says a world, in CSV or in TOML, says a complete one, whose names are spelled as names
/// and told apart.
pub fn said_worlds_are_whole()
    ensures csv { (text : List ℕ) (w : Lists) → csv_says text ≡ Ok w → IsComplete w × IsNamed w }
    ensures toml { (text : List ℕ) (w : Lists) → toml_says text ≡ Ok w → IsComplete w × IsNamed w }
{}

/// The records of a world say that world.
pub fn printed_worlds_are_read()
    ensures { (w : Lists) → IsComplete w → IsNamed w → read_records (records_of w) ≡ Ok w }
{}

/// The document of a world in TOML says that world.
pub fn documents_are_read()
    ensures { (w : Lists) → IsComplete w → IsNamed w → document_says (Some (document_of w)) ≡ Ok w }
{}

/// The records of a text that is made of records are those records, where each has two fields or
/// more, of which the first doesn't begin with a byte order mark.
pub fn records_are_in_their_text()
    ensures { (records : List Record) → All IsReadBack records → records_in (flat_map (row_text default_writer) records) ≡ records }
{}
