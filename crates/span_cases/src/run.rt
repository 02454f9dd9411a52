use crate::deals::deals_of;
use crate::faults::Faults;
use span_base::Word;
use std::alloc::{AllocError, Global};

/// A run: its words, and what else is asked of it.
#[derive(Drop)]
pub struct Run {
    /// The words after `span`.
    pub words: Vec<Word>,
    /// The calls that fail.
    pub faults: Faults,
    /// Each call of the shelf fails once, then each of the sink, and then each of the link, until a
    /// run has no such call.
    pub each_fault: bool,
    /// What the link gives next, deal by deal, as a text; the usual link gives what was sent.
    pub deals: Option<String>,
    /// The lines of trees are left out.
    pub no_trees: bool,
    /// What a status means is told in words too.
    pub in_words: bool,
    /// The last file is cut at each of its lengths in turn; a length is told where its status line
    /// is another than that of the length before.
    pub each_front: bool,
    /// The last file is a schedule, and a replica crashes before each of its deliveries in turn, at
    /// each call of its disk.
    pub each_crash: bool,
    /// What is written becomes the file of this name, and isn't told.
    pub into: Option<String>,
}

/// The run of these words, of which the first is `span`, and of these options, with a ` ; ` between
/// them. None where an option is none.
pub fn run_of(
    alloc: Global,
    command: &str,
    options: Option<&str>,
) -> Result<Option<Run>, AllocError> {
    let mut run = Run {
        words: words_of(alloc, command)?,
        faults: Faults::none(),
        each_fault: false,
        deals: None,
        no_trees: false,
        in_words: false,
        each_front: false,
        each_crash: false,
        into: None,
    };
    let Some(options) = options else {
        return Ok(Some(run));
    };
    for option in options.split(" ; ") {
        if !take_option(alloc, &mut run, option)? {
            return Ok(None);
        }
    }
    Ok(Some(run))
}

// The words after the first. The empty word is spelled ''.
fn words_of(alloc: Global, command: &str) -> Result<Vec<Word>, AllocError> {
    let mut words = Vec::new(alloc);
    for word in command.split(' ').skip(1) {
        let text = if word == "''" { "" } else { word };
        words.push(Word::from_string(String::from_str(alloc, text)?))?;
    }
    Ok(words)
}

// Takes an option, and answers whether it is one.
fn take_option(alloc: Global, run: &mut Run, option: &str) -> Result<bool, AllocError> {
    if let Some(name) = option.strip_prefix("into ") {
        run.into = Some(String::from_str(alloc, name)?);
        return Ok(true);
    }
    if let Some(deals) = option.strip_prefix("deals ") {
        if deals_of(alloc, deals)?.is_none() {
            return Ok(false);
        }
        run.deals = Some(String::from_str(alloc, deals)?);
        return Ok(true);
    }
    match option {
        "each-fault" => run.each_fault = true,
        "each-front" => run.each_front = true,
        "each-crash" => run.each_crash = true,
        "no-trees" => run.no_trees = true,
        "in-words" => run.in_words = true,
        _ => return Ok(take_failing_call(run, option)),
    }
    Ok(true)
}

// Takes `shelf N`, `sink N` or `link N`.
fn take_failing_call(run: &mut Run, option: &str) -> bool {
    let Some((device, number)) = option.split_once(' ') else {
        return false;
    };
    let Ok(call) = number.parse::<u64>() else {
        return false;
    };
    match device {
        "shelf" => run.faults.shelf = Some(call),
        "sink" => run.faults.sink = Some(call),
        "link" => run.faults.link = Some(call),
        _ => return false,
    }
    true
}
