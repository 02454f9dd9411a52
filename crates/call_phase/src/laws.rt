ghost use Rattle.std.specs.Prelude.{◌≡◌, ◌↔◌, IsTrue};
ghost use Rattle.call_phase.specs.Counting.{is_same_tag};
ghost use Rattle.wire_msg.specs.declared.tag.Tag.{Tag};

/// Tags that agree in every part are one tag.
pub fn tags_are_told_apart()
    ensures { (a b : Tag) → IsTrue (is_same_tag a b) ↔ (a ≡ b) }
{}
