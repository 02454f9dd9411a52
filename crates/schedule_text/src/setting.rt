use span_base::Listed;

/// Which lines a schedule may have.
#[derive(Clone, Copy, Debug, PartialEq, Eq)]
pub enum Form {
    /// Every event.
    Plain,
    /// Every event but the delivery of a message, which the link sees to.
    Script,
}

/// How the keys of a set are kept.
#[derive(Clone, Copy, Debug, PartialEq, Eq)]
pub enum Mode {
    Direct,
    Relay,
    Strong,
}

/// What the events of a schedule are judged by.
#[derive(Debug, Drop)]
pub struct Setting {
    pub(crate) form: Form,
    /// How many replicas there are, at most 16.
    pub(crate) replicas: u8,
    /// The mode of each set.
    pub(crate) modes: Listed<Mode>,
}
