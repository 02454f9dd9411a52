/// Looks on while a world is planned. What it does changes nothing of the plan.
pub trait Watch {
    /// Planning begins, of so many sets.
    fn begin(&mut self, sets: u16);

    /// A line of a tree was written.
    fn line_written(&mut self);

    /// A set was planned.
    fn set_planned(&mut self);
}

/// Nobody looks on.
#[derive(Clone, Copy, Debug)]
pub struct Unwatched;

impl Watch for Unwatched {
    fn begin(&mut self, _: u16) {}

    fn line_written(&mut self) {}

    fn set_planned(&mut self) {}
}
