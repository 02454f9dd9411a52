ghost use Rattle.std.specs.Prelude.{◌≡◌};
ghost use Rattle.span_service.specs.Endings.{word_of};

/// How the service of a connection ended.
#[derive(Clone, Copy, Debug, PartialEq, Eq)]
pub(crate) enum Ending {
    /// After a whole request.
    End,
    /// With what is no request.
    Bad,
    /// Inside a request.
    Torn,
    /// With one request more than are served.
    Limit,
    /// The connection failed to give bytes.
    Read,
    /// The connection failed to take bytes.
    Write,
}

/// How many requests of a connection were answered whole, and how its service ended.
#[derive(Clone, Copy, Debug, PartialEq, Eq)]
pub(crate) struct Outcome {
    pub answered: u64,
    pub ending: Ending,
}

impl Ending {
    /// The word for it.
    pub(crate) fn word(self) -> &'static str
        ensures { result.now ≡ word_of self }
    {
        match self {
            Ending::End => "end",
            Ending::Bad => "bad",
            Ending::Torn => "torn",
            Ending::Limit => "limit",
            Ending::Read => "read",
            Ending::Write => "write",
        }
    }
}
