ghost use Rattle.std.specs.Prelude.{◌≡◌, [], ◌∷◌, ◌++◌, codes, Ok};
ghost use Rattle.span_base.specs.declared.words.What.TheVariants as what;
ghost use Rattle.machine_text.specs.ReadMachines.{machines_in, refused_at, refused_above};
ghost use Rattle.machine_text.specs.Worked.{two_centres, in_ones, machine, cheap_at_x, dear_at_y, cheap_and_dear};

/// What machine files say for a world of two centres, and where they are refused: at the record
/// that is too few or too many, at a number that is below the least, and above a limit unless the
/// record has another number of fields.
pub fn worked_files()
    ensures read { machines_in two_centres (in_ones ++ cheap_at_x ∷ dear_at_y ∷ []) ≡ Ok cheap_and_dear }
    ensures empty { machines_in two_centres [] ≡ refused_at 1 }
    ensures no_unit { machines_in two_centres ((codes "span-machines" ∷ codes "1" ∷ []) ∷ []) ≡ refused_at 2 }
    ensures too_few { machines_in two_centres (in_ones ++ cheap_at_x ∷ []) ≡ refused_at 4 }
    ensures too_many { machines_in two_centres (in_ones ++ cheap_at_x ∷ dear_at_y ∷ dear_at_y ∷ []) ≡ refused_at 5 }
    ensures out_of_order { machines_in two_centres (in_ones ++ dear_at_y ∷ cheap_at_x ∷ []) ≡ refused_at 3 }
    ensures no_capacity { machines_in two_centres (in_ones ++ machine (codes "x") (codes "0") (codes "0") (codes "11") ∷ []) ≡ refused_at 3 }
    ensures many_digits { machines_in two_centres (in_ones ++ machine (codes "x") (codes "0") (codes "1") (codes "11") ∷ []) ≡ refused_above 3 what.Digits 11 }
    ensures fields_first { machines_in two_centres (in_ones ++ (machine (codes "x") (codes "0") (codes "1") (codes "11") ++ [] ∷ []) ∷ []) ≡ refused_at 3 }
{}
