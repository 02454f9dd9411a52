ghost use Rattle.std.specs.Prelude.{◌≡◌, ◌⊎◌, ◌↔◌};
ghost use Rattle.std.specs.Cmp.{IsTotalOrder};
ghost use Rattle.ticket_rules.specs.declared.stamp.Stamp.{Stamp};
ghost use Rattle.ticket_rules.specs.Stamp.{stamp_cmp, stamp_zero, IsAbove, IsAboveByFields, IsAtMost};

/// The order of stamps is total and goes by the fields from left to right, and stamp zero is the
/// least.
pub fn stamps_are_ordered()
    ensures by_fields { (a b : Stamp) → IsAbove a b ↔ IsAboveByFields a b }
    ensures irreflexive { (a : Stamp) → ¬ IsAbove a a }
    ensures transitive { (a b c : Stamp) → IsAbove a b → IsAbove b c → IsAbove a c }
    ensures one_of_three { (a b : Stamp) → IsAbove a b ⊎ (a ≡ b) ⊎ IsAbove b a }
    ensures at_most { (a b : Stamp) → IsAtMost a b ↔ ((a ≡ b) ⊎ IsAbove b a) }
    ensures zero_is_least { (a : Stamp) → IsAtMost stamp_zero a }
    ensures total { IsTotalOrder stamp_cmp }
{}
