/// A line of the list of cases.
pub enum Line<'a> {
    /// An empty line, or a remark after a `#`.
    Remark,
    /// `file NAME`: a new file of this name, without any bytes so far.
    File {
        name: &'a str,
    },
    /// `|TEXT`: one more line of the newest file.
    Text {
        text: &'a str,
    },
    /// `~TEXT`: the same without a line feed.
    Unended {
        text: &'a str,
    },
    /// `*COUNT TEXT`: so many lines of the newest file, each with its number, counted from 1, for
    /// every `#`. The text may be absent.
    Repeated {
        count: u64,
        text: &'a str,
    },
    /// `+COUNT TEXT`: the text so many times, without line feeds.
    Unbroken {
        count: u64,
        text: &'a str,
    },
    /// `span WORD ..`, and the options behind a ` ; `.
    Run {
        command: &'a str,
        options: Option<&'a str>,
    },
    /// None of these.
    Unknown,
}

/// What a line of the list is.
pub fn line_of(line: &str) -> Line<'_> {
    if line.is_empty() || line.starts_with('#') {
        return Line::Remark;
    }
    if let Some(name) = line.strip_prefix("file ") {
        return Line::File { name };
    }
    if let Some(text) = line.strip_prefix('|') {
        return Line::Text { text };
    }
    if let Some(text) = line.strip_prefix('~') {
        return Line::Unended { text };
    }
    if let Some(repeated) = line.strip_prefix('*') {
        return match counted_of(repeated) {
            Some((count, text)) => Line::Repeated { count, text },
            None => Line::Unknown,
        };
    }
    if let Some(unbroken) = line.strip_prefix('+') {
        return match counted_of(unbroken) {
            Some((count, text)) => Line::Unbroken { count, text },
            None => Line::Unknown,
        };
    }
    if line == "span" || line.starts_with("span ") {
        return run_line_of(line);
    }
    Line::Unknown
}

// A number, and the text behind the space after it. The text may be absent.
fn counted_of(line: &str) -> Option<(u64, &str)> {
    let (count, text) = line.split_once(' ').unwrap_or((line, ""));
    Some((count.parse::<u64>().ok()?, text))
}

fn run_line_of(line: &str) -> Line<'_> {
    match line.split_once(" ; ") {
        Some((command, options)) => Line::Run {
            command,
            options: Some(options),
        },
        None => Line::Run {
            command: line,
            options: None,
        },
    }
}
