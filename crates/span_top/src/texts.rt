use span_base::{Cause, What};

/// What is asked of a file where a record or line, or the whole text, is refused for this cause. The causes
/// of other files have their word alone.
pub fn asked_by_cause(cause: Cause) -> &'static str {
    match cause {
        Cause::Version => "a world begins with span and its version, 1 or 2",
        Cause::Kind => "a record begins with dc, link, set or use",
        Cause::Fields => "a record has just the fields of its kind",
        Cause::Name => "a name is 1 to 32 bytes, each a letter, a digit, '-', '_' or '.'",
        Cause::Mode => "a mode is direct, relay or strong",
        Cause::Number => {
            "a number is 0, or 1 to 38 digits of which the first isn't 0; a set asks for 1 provider or more"
        }
        Cause::Unknown => "a centre or a set is defined before it is named elsewhere",
        Cause::Twice => {
            "no two centres, and no two sets, have one name; a pair has one link, and a set one use in a centre"
        }
        Cause::Link => "every ordered pair of centres has a link, a centre with itself too",
        Cause::Members => "every set has a use",
        Cause::Toml => "the text is TOML in UTF-8, and its integers fit 64 bits",
        Cause::Key => {
            "the top keys are span and the arrays of tables dc, link, set and use; a table has just the keys of its kind, each with its kind of value"
        }
        Cause::Syntax =>
            "a line is of a form that is allowed at its place, and ends with a line feed",
        Cause::End => "a plan ends with the line end, and with nothing after it",
        Cause::Range => {
            "the replicas and the set of a policy are there, and a table lists a set once"
        }
        Cause::Policy => "a policy is sound, and one that is published has its set's mode",
        other => other.word(),
    }
}

/// What is asked of a schedule's event that is refused for this cause.
pub fn asked_by_event(cause: Cause) -> &'static str {
    match cause {
        Cause::Actor => "the store has a proxy, or a replica, of this number",
        Cause::Key => "the store has a key of this number",
        Cause::Mode => "keys of strong sets are read and written, others got and put",
        Cause::Message => "a message is delivered after it was sent",
        Cause::Call =>
            "a call is given up while it is live, and one that moves an eventual key in its first phase",
        other => other.word(),
    }
}

/// What is asked of a plan or a log where a line breaks the clause of this cause. The causes of other files have
/// their word alone.
pub fn asked_by_clause(cause: Cause) -> &'static str {
    match cause {
        Cause::Call =>
            "a call begins with its proxy's next number, then draws its tickets, then ends once",
        Cause::Kind =>
            "a ticket is drawn by a write or a put, and a reply is one that the call's kind has",
        Cause::Stamp => {
            "a ticket is its call's own and above its earlier ones, and a write or put answers its latest"
        }
        Cause::Value => {
            "a read gives the value of a ticket in an earlier line, or the empty one with stamp zero"
        }
        Cause::Set => "the parts of a plan are those of the world's sets, in order",
        Cause::TooLong => "a tree has no line after it is whole",
        Cause::VarUnknown => "a tree branches on a variable of the set's program",
        Cause::VarTwice => "a tree branches once on a variable on a path",
        Cause::RowUnknown => "a leaf takes rows of the set's program",
        Cause::Range => "a leaf's multipliers are in their ranges, and its rows rise",
        Cause::OpenLeaf => "a leaf's value passes what its result says",
        Cause::Unfinished => "a set's search came to its end within the budget",
        Cause::TooShort => "a tree is whole at its result",
        Cause::BoundedLeaf => {
            "where a result is that no policy is allowed, each leaf shows that no assignment is feasible"
        }
        Cause::Policy => {
            "the lines of a policy are those of its mode, with the members and centres in order"
        }
        Cause::Rule => "a plan's policy is allowed for its set",
        Cause::Cost => "a plan's policy costs what its result says",
        Cause::Dead => "no read gives the ticket of a write that ended without effect",
        Cause::Order => {
            "a call that began after another was answered takes effect after it, and a write once"
        }
        other => other.word(),
    }
}

/// What is asked of a file where a number passes this limit. The limits of other files have their
/// word alone.
pub fn asked_by_limit(what: What) -> &'static str {
    match what {
        What::Price => "a price is at most 1,000,000,000 pico-dollars",
        What::Count => "gets and puts are at most 1,000,000,000 in a period",
        What::Stored => "a set stores at most 1,000,000,000,000 KiB",
        What::Object => "an object has at most 100,000 KiB",
        What::Latency => "a latency or a goal is at most 1,000,000 ms",
        What::F => "a set stands at most 3 failures",
        What::Centres => "there are at most 16 centres",
        What::Sets => "a world has at most 1,000 sets, a schedule 64",
        What::Members => "a set has at most 8 members",
        What::Providers => "a set asks for at most 16 providers",
        What::Bytes => {
            "the file of a world has at most 16,777,216 bytes, that of a schedule 67,108,864, that of a log 268,435,456 and that of a plan 4,294,967,295"
        }
        What::Lines => "a log has at most 4,000,000 lines",
        What::Line => "a line has at most 1,048,576 bytes",
        What::Replicas => "a schedule has at most 16 replicas",
        What::Keys => "a schedule has at most 1,000 keys",
        What::Proxies => "a schedule has at most 64 proxies",
        What::Events => "a schedule has at most 1,000,000 events, and a script with its deliveries",
        What::Number => "a number of a schedule is at most 4,294,967,295",
        What::Messages => "a run sends at most 4,000,000 messages",
        What::FrameBytes => "the messages of a run have at most 536,870,912 bytes",
        What::Epochs => "a run has at most 1,000 epochs",
        other => other.word(),
    }
}
