//! Lines of policies of small worlds, read by hand.
ghost use Rattle.std.specs.Prelude.{◌≡◌, [], ◌∷◌, codes};
ghost use Rattle.slo_rules.specs.PolicyReading.{blank, step};
ghost use Rattle.slo_rules.specs.PolicyLaws.{policy_from};
ghost use Rattle.slo_rules.specs.Examples.{two_centres, at, at_begun, one_writer, through_b, hops_begun, three_equal, at_all, strong_begun};

use crate::policy_line::PolicyFault;

/// What lines give, one policy of each mode: one with a line behind it, and one that lacks a line.
pub fn worked_readings()
    ensures direct { policy_from two_centres (blank 0) (codes "replicas y" ∷ codes "primary x y" ∷ codes "end" ∷ []) ≡ Some (at 1, codes "end" ∷ []) }
    ensures relay { policy_from one_writer (blank 0) (codes "replicas b c" ∷ codes "primary a b" ∷ codes "primary b b" ∷ codes "primary c c" ∷ codes "parent a b b" ∷ codes "parent a c b" ∷ codes "parent b b b" ∷ codes "parent b c c" ∷ codes "parent c b b" ∷ codes "parent c c c" ∷ []) ≡ Some (through_b, []) }
    ensures strong { policy_from three_equal (blank 0) (codes "replicas x y z" ∷ codes "quorum x read x y z ; write x y z" ∷ []) ≡ Some (at_all, []) }
    ensures lacking { policy_from two_centres (blank 0) (codes "replicas y" ∷ []) ≡ None }
{}

/// The byte at which each of these lines can't go on.
pub fn worked_forms()
    ensures empty { step two_centres (blank 0) [] ≡ Err (PolicyFault.Bad 0) }
    ensures other_word { step two_centres (blank 0) (codes "set s direct 4") ≡ Err (PolicyFault.Bad 0) }
    ensures other_word_of_r { step two_centres (blank 0) (codes "result none") ≡ Err (PolicyFault.Bad 2) }
    ensures no_name { step two_centres (blank 0) (codes "replicas") ≡ Err (PolicyFault.Bad 8) }
    ensures two_spaces { step two_centres (blank 0) (codes "replicas  x") ≡ Err (PolicyFault.Bad 9) }
    ensures space_behind { step two_centres (blank 0) (codes "replicas x ") ≡ Err (PolicyFault.Bad 11) }
    ensures semicolon { step two_centres (blank 0) (codes "replicas x ;") ≡ Err (PolicyFault.Bad 11) }
    ensures long_name { step two_centres (blank 0) (codes "replicas nnnnnnnnnnnnnnnnnnnnnnnnnnnnnnnnn") ≡ Err (PolicyFault.Bad 41) }
    ensures no_primary { step two_centres (blank 0) (codes "primary x") ≡ Err (PolicyFault.Bad 9) }
    ensures third_name { step two_centres (blank 0) (codes "primary x y z") ≡ Err (PolicyFault.Bad 11) }
    ensures no_parent { step two_centres (blank 0) (codes "parent x y") ≡ Err (PolicyFault.Bad 10) }
    ensures none_read { step two_centres (blank 0) (codes "quorum x read ; write x") ≡ Err (PolicyFault.Bad 14) }
    ensures no_semicolon { step two_centres (blank 0) (codes "quorum x read x write y") ≡ Err (PolicyFault.Bad 23) }
    ensures none_written { step two_centres (blank 0) (codes "quorum x read x ; write") ≡ Err (PolicyFault.Bad 23) }
{}

/// What is wrong with lines that have a form.
pub fn worked_line_faults()
    ensures unknown_replica { step two_centres (blank 0) (codes "replicas z") ≡ Err PolicyFault.Unknown }
    ensures falling { step two_centres (blank 0) (codes "replicas y x") ≡ Err PolicyFault.Order }
    ensures twice { step two_centres (blank 0) (codes "replicas x x") ≡ Err PolicyFault.Order }
    ensures too_early { step two_centres (blank 0) (codes "primary x y") ≡ Err PolicyFault.Kind }
    ensures second_replicas { step two_centres at_begun (codes "replicas y") ≡ Err PolicyFault.Kind }
    ensures other_mode { step two_centres at_begun (codes "quorum x read x ; write x") ≡ Err PolicyFault.Kind }
    ensures other_member { step two_centres at_begun (codes "primary y y") ≡ Err PolicyFault.Member }
    ensures unknown_member { step two_centres at_begun (codes "primary z y") ≡ Err PolicyFault.Unknown }
    ensures unknown_primary { step two_centres at_begun (codes "primary x z") ≡ Err PolicyFault.Unknown }
    ensures passed_over { step one_writer hops_begun (codes "parent b b b") ≡ Err PolicyFault.Member }
    ensures hop_out_of_order { step one_writer hops_begun (codes "parent a b b") ≡ Err PolicyFault.Order }
    ensures unknown_parent { step one_writer hops_begun (codes "parent a c z") ≡ Err PolicyFault.Unknown }
    ensures read_falling { step three_equal strong_begun (codes "quorum x read y x ; write x") ≡ Err PolicyFault.Order }
    ensures unknown_written { step three_equal strong_begun (codes "quorum x read x y ; write x a") ≡ Err PolicyFault.Unknown }
{}
