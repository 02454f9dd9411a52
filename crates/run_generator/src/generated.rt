ghost use Rattle.std.specs.Prelude.{◌≤◌, IfOk};
ghost use Rattle.run_generator.specs.Told.{IsGenerated};

use crate::generator::Generator;
use message_wire::Wire;
use span_base::Bytes;
use std::alloc::{AllocError, Global};

/// What a generated run comes to.
#[derive(Debug, Drop)]
pub struct Generated {
    /// The whole text of the run: the lines of its marks, and how many messages were sent.
    pub log: Bytes,
    /// How many calls ended ok.
    pub ok: u32,
    /// How many ended otherwise.
    pub ended: u32,
    /// How many messages were sent.
    pub messages: u32,
}

/// Runs so many calls, at most 20,000. All is drawn from their number, so that the same run comes
/// of the same number.
pub fn generate(alloc: Global, n: u32) -> Result<Generated, AllocError>
    requires { n ≤ 20000 }
    ensures { IfOk result (λ generated. IsGenerated n generated) }
{
    let mut generator = Generator::open(alloc, n)?;
    for before in 0..n {
        generator.turn(alloc, before + 1)?;
    }
    let messages = generator.cloud.wire().sent();
    let log = generator.log;
    let mut text = log.text;
    write!(&mut text, "messages {messages}\n")?;
    Ok(Generated {
        log: Bytes::from_vec(text.into_bytes()),
        ok: log.ok,
        ended: log.ended,
        messages,
    })
}
