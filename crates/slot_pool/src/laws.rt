//! What holds over every list of calls on a pool.
ghost use Rattle.std.specs.Prelude.{◌≡◌, ◌≤◌, ℕ, List, Some, None};
ghost use Rattle.std.specs.List.{IsDistinct};
ghost use Rattle.slot_pool.specs.declared.handles.Handle.{Handle};
ghost use Rattle.slot_pool.specs.Slots.{Slot, generation_at, item_at, IsLive, next_handle, after_take};
ghost use Rattle.slot_pool.specs.Calls.{Call, after_calls, IsGone, same_handle, recorded_all, opening};

/// Over every list of calls on a new pool, its handles and items are a finite map, to which each
/// put adds one pair under a handle that was never given before. On any pool no generation ever
/// falls, and a handle that was taken, of a lower generation than its slot, or of a retired slot
/// never answers again and is never given again.
pub fn taken_handles_never_answer<T>()
    // From a new pool on.
    ensures finite_map { (capacity first : ℕ) (calls : List (Call T)) (handle : Handle) → item_at (recorded_all calls (opening capacity first)).slots handle ≡ (recorded_all calls (opening capacity first)).items handle }
    ensures slots { (capacity first : ℕ) (calls : List (Call T)) → (recorded_all calls (opening capacity first)).slots ≡ after_calls calls (opening capacity first).slots }
    ensures given_once { (capacity first : ℕ) (calls : List (Call T)) → IsDistinct same_handle (recorded_all calls (opening capacity first)).given }

    // From any pool on.
    ensures generations { (slots : List (Slot T)) (calls : List (Call T)) (number : ℕ) → generation_at slots number ≤ generation_at (after_calls calls slots) number }
    ensures gone { (slots : List (Slot T)) (calls : List (Call T)) (handle : Handle) → IsGone slots handle → item_at (after_calls calls slots) handle ≡ None }
    ensures never_again { (slots : List (Slot T)) (calls : List (Call T)) (handle : Handle) → IsGone slots handle → next_handle (after_calls calls slots) ≡ Some handle → ⊥ }
    ensures taken { (slots : List (Slot T)) (calls : List (Call T)) (handle : Handle) → IsLive slots handle → item_at (after_calls calls (after_take slots handle)) handle ≡ None }
{}
