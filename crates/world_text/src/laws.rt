ghost use Rattle.std.specs.Prelude.{◌≡◌, [], ◌∷◌, ◌++◌, codes, Ok, Err};
ghost use Rattle.span_base.specs.declared.words.Cause.TheVariants as cause;
ghost use Rattle.world_text.specs.Records.{records_of};
ghost use Rattle.world_text.specs.declared.fault.Fault.TheVariants.{Bad};
ghost use Rattle.world_text.specs.ReadWorld.{read_records};
ghost use Rattle.world_text.specs.Worked.{worked_before, last_link, worked_after, worked_world};

/// The records of a dear centre with one member and a cheap one 20 ms away.
pub fn records_of_two_centres()
    ensures { records_of worked_world
        ≡ (codes "span" ∷ codes "1" ∷ [])
        ∷ (codes "dc" ∷ codes "x" ∷ codes "north" ∷ codes "10" ∷ codes "5" ∷ codes "7" ∷ [])
        ∷ (codes "dc" ∷ codes "y" ∷ codes "south" ∷ codes "1" ∷ codes "5" ∷ codes "7" ∷ [])
        ∷ (codes "link" ∷ codes "x" ∷ codes "x" ∷ codes "0" ∷ codes "1" ∷ [])
        ∷ (codes "link" ∷ codes "x" ∷ codes "y" ∷ codes "3" ∷ codes "20" ∷ [])
        ∷ (codes "link" ∷ codes "y" ∷ codes "x" ∷ codes "3" ∷ codes "20" ∷ [])
        ∷ (codes "link" ∷ codes "y" ∷ codes "y" ∷ codes "0" ∷ codes "1" ∷ [])
        ∷ (codes "set" ∷ codes "s" ∷ codes "direct" ∷ codes "0" ∷ codes "30" ∷ codes "30" ∷ codes "100" ∷ codes "2" ∷ [])
        ∷ (codes "use" ∷ codes "s" ∷ codes "x" ∷ codes "10" ∷ codes "4" ∷ [])
        ∷ [] }
{}

/// What the records of two centres say; without the last link they are refused at the end, and
/// without any record at the first line.
pub fn worked_world_is_read()
    ensures world { read_records (worked_before ++ last_link ++ worked_after) ≡ Ok worked_world }
    ensures link { read_records (worked_before ++ worked_after) ≡ Err (9, Bad cause.Link) }
    ensures version { read_records [] ≡ Err (1, Bad cause.Version) }
{}
