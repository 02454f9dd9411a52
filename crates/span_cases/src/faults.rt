use std::alloc::{AllocError, Global};

/// The calls of a run that fail, each by its number, counted from 1.
#[derive(Clone, Copy)]
pub struct Faults {
    pub shelf: Option<u64>,
    pub sink: Option<u64>,
    pub link: Option<u64>,
}

impl Faults {
    /// No call fails.
    pub fn none() -> Faults {
        Faults {
            shelf: None,
            sink: None,
            link: None,
        }
    }

    /// A call of the shelf fails.
    pub fn of_shelf(call: u64) -> Faults {
        Faults {
            shelf: Some(call),
            sink: None,
            link: None,
        }
    }

    /// A call of the sink fails.
    pub fn of_sink(call: u64) -> Faults {
        Faults {
            shelf: None,
            sink: Some(call),
            link: None,
        }
    }

    /// A call of the link fails.
    pub fn of_link(call: u64) -> Faults {
        Faults {
            shelf: None,
            sink: None,
            link: Some(call),
        }
    }
}

/// The list of the calls that fail.
pub fn failing(alloc: Global, call: Option<u64>) -> Result<Vec<u64>, AllocError> {
    let mut calls = Vec::new(alloc);
    if let Some(call) = call {
        calls.push(call)?;
    }
    Ok(calls)
}
