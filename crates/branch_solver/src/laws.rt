//! What the lines are that a search stands for, as a law over all programs.

ghost use Rattle.branch_solver.specs.Laws.{SearchesAreOpen, SearchesProve};

/// Until the tree is whole, the lines that a search stands for are an open prefix against its
/// goal; then they are a proof of it.
pub fn lines_are_a_tree()
    ensures open_prefix { SearchesAreOpen }
    ensures proof { SearchesProve }
{}
