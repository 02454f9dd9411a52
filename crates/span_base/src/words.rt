/// Why a file, a line or an event is refused, each told by what is asked there. Its word stands in
/// what the program prints.
#[derive(Clone, Copy, Debug, PartialEq, Eq)]
pub enum Cause {
    /// A world begins with span and its version, 1 or 2.
    Version,
    /// A record begins with dc, link, set or use.
    Kind,
    /// A record has just the fields of its kind.
    Fields,
    /// A name is 1 to 32 bytes, each a letter, a digit, '-', '_' or '.'.
    Name,
    /// A mode is direct, relay or strong. In a schedule: keys of this mode have no such call.
    Mode,
    /// A number is 0, or digits of which the first isn't 0, 38 at most in a world.
    Number,
    /// A centre or a set is defined before it is named elsewhere.
    Unknown,
    /// No two centres, and no two sets, have one name; a pair has one link, and a set one use in a
    /// centre.
    Twice,
    /// Every ordered pair of centres has a link, a centre with itself too.
    Link,
    /// Every set has a use.
    Members,
    /// The text is TOML in UTF-8, and its integers fit 64 bits.
    Toml,
    /// The top keys are span and the arrays of tables dc, link, set and use; a table has just the
    /// keys of its kind. In a schedule: there is no key of this number.
    Key,
    /// A line is of a form that is allowed at its place, and ends with a line feed.
    Syntax,
    /// A plan ends with the line end, and with nothing after it.
    End,
    /// The parts of a plan are those of the world's sets, in order.
    Set,
    /// A tree has no line after it is whole.
    TooLong,
    /// A tree branches on a variable of the set's program.
    VarUnknown,
    /// A tree branches once on a variable on a path.
    VarTwice,
    /// A leaf takes rows of the set's program.
    RowUnknown,
    /// A leaf's multipliers are in their ranges, and its rows rise. In a schedule: a replica or a
    /// set of a policy is there.
    Range,
    /// A leaf's value passes what its result says.
    OpenLeaf,
    /// A set's search came to its end within the budget.
    Unfinished,
    /// A tree is whole at its result.
    TooShort,
    /// Where a result is that no policy is allowed, each leaf shows that no assignment is feasible.
    BoundedLeaf,
    /// The lines of a policy are those of the set's mode, with its members in order and lists of
    /// centres in the world's order. In a schedule: a policy is sound.
    Policy,
    /// A plan's policy is allowed for its set.
    Rule,
    /// A plan's policy costs what its result says.
    Cost,
    /// A joint plan has the machines that it pays for.
    Machines,
    /// There is a proxy or replica of this number.
    Actor,
    /// A message of this number was sent.
    Message,
    /// The proxy has a live call of this number, which may be given up. In a log: a call begins,
    /// then draws its tickets, then ends once.
    Call,
    /// A ticket is its call's own and rises, and a write answers its latest.
    Stamp,
    /// A read gives the value of a ticket in an earlier line, or the empty one with stamp zero.
    Value,
    /// No counted read gives the ticket of a write that ended without effect.
    Dead,
    /// A call that began after another ended takes effect after it.
    Order,
}

impl Cause {
    /// The word that the program prints.
    pub fn word(self) -> &'static str {
        match self {
            Cause::Version => "version",
            Cause::Kind => "kind",
            Cause::Fields => "fields",
            Cause::Name => "name",
            Cause::Mode => "mode",
            Cause::Number => "number",
            Cause::Unknown => "unknown",
            Cause::Twice => "twice",
            Cause::Link => "link",
            Cause::Members => "members",
            Cause::Toml => "toml",
            Cause::Key => "key",
            Cause::Syntax => "syntax",
            Cause::End => "end",
            Cause::Set => "set",
            Cause::TooLong => "too-long",
            Cause::VarUnknown => "var-unknown",
            Cause::VarTwice => "var-twice",
            Cause::RowUnknown => "row-unknown",
            Cause::Range => "range",
            Cause::OpenLeaf => "open-leaf",
            Cause::Unfinished => "unfinished",
            Cause::TooShort => "too-short",
            Cause::BoundedLeaf => "bounded-leaf",
            Cause::Policy => "policy",
            Cause::Rule => "rule",
            Cause::Cost => "cost",
            Cause::Machines => "machines",
            Cause::Actor => "actor",
            Cause::Message => "message",
            Cause::Call => "call",
            Cause::Stamp => "stamp",
            Cause::Value => "value",
            Cause::Dead => "dead",
            Cause::Order => "order",
        }
    }
}

/// What was counted or measured where a limit is passed. Its word stands in what the program
/// prints.
#[derive(Clone, Copy, Debug, PartialEq, Eq)]
pub enum What {
    /// A price, at most 1,000,000,000 pico-dollars.
    Price,
    /// Gets or puts in a period, at most 1,000,000,000.
    Count,
    /// What a set stores, at most 1,000,000,000,000 KiB.
    Stored,
    /// An object's size, at most 100,000 KiB.
    Object,
    /// A latency or a goal, at most 1,000,000 ms.
    Latency,
    /// The failures that a set stands, at most 3.
    F,
    /// Centres, at most 16.
    Centres,
    /// Sets, at most 1,000 in a world and 64 in a schedule.
    Sets,
    /// Members of a set, at most 8.
    Members,
    /// Providers that a set asks for, at most 16.
    Providers,
    /// Replicas of a schedule, at most 16.
    Replicas,
    /// Keys of a schedule, at most 1,000.
    Keys,
    /// Proxies of a schedule, at most 64.
    Proxies,
    /// Events of a schedule, at most 1,000,000.
    Events,
    /// Any other number of a schedule, at most 4,294,967,295.
    Number,
    /// Messages sent in a run, at most 4,000,000.
    Messages,
    /// Bytes of the frames sent in a run, at most 536,870,912.
    FrameBytes,
    /// Epochs of a run, at most 1,000.
    Epochs,
    /// Bytes of a file.
    Bytes,
    /// Bytes of a line.
    Line,
    /// Lines of a file.
    Lines,
    /// Variables of a program, at most 4,096.
    Variables,
    /// Rows of a program, at most 16,384.
    Rows,
    /// All coefficients and bounds of a program together, at most 10,000,000.
    Weight,
    /// The unit in which machines are counted.
    Unit,
    /// What a machine serves.
    Capacity,
    /// Digits of a number.
    Digits,
}

impl What {
    /// The word that the program prints.
    pub fn word(self) -> &'static str {
        match self {
            What::Price => "price",
            What::Count => "count",
            What::Stored => "stored",
            What::Object => "object",
            What::Latency => "latency",
            What::F => "f",
            What::Centres => "centres",
            What::Sets => "sets",
            What::Members => "members",
            What::Providers => "providers",
            What::Replicas => "replicas",
            What::Keys => "keys",
            What::Proxies => "proxies",
            What::Events => "events",
            What::Number => "number",
            What::Messages => "messages",
            What::FrameBytes => "frame-bytes",
            What::Epochs => "epochs",
            What::Bytes => "bytes",
            What::Line => "line",
            What::Lines => "lines",
            What::Variables => "variables",
            What::Rows => "rows",
            What::Weight => "weight",
            What::Unit => "unit",
            What::Capacity => "capacity",
            What::Digits => "digits",
        }
    }
}
