use span_base::Listed;

/// A choice of all variables: the bit of variable `i` stands at place `i`.
pub type Bits = Listed<bool>;

/// The variables that a path fixes, each with its bit; `None` at a variable that is free.
pub type Fixed = Listed<Option<bool>>;
