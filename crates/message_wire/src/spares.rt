ghost use Rattle.std.specs.Prelude.{◌≡◌, ◌+◌, ◌≤◌, All, length, IfOk, OnOk, OnErr, IsOk};
ghost use Rattle.message_wire.specs.Framed.{IsSpare};

use std::alloc::{AllocError, Global};

/// The most bytes that a frame may have.
const FRAME_LIMIT: usize = 8192;

/// Memory for a frame.
fn spare(alloc: Global) -> Result<Vec<u8>, AllocError>
    ensures { IfOk result IsSpare }
{
    Vec::with_capacity(alloc, FRAME_LIMIT)
}

/// Takes memory for a frame out of what is spare, and new memory where nothing is.
pub(crate) fn take_spare(spares: &mut Vec<Vec<u8>>, alloc: Global) -> Result<Vec<u8>, AllocError>
    requires { All IsSpare spares.old.items }
    ensures taken { IfOk result IsSpare }
    ensures spares { All IsSpare spares.new.items }
    ensures one { length spares.old.items ≤ length spares.new.items + 1 }
    ensures err { OnErr result (spares.new.items ≡ spares.old.items) }
    ensures roomy { 1 ≤ length spares.old.items → IsOk result }
{
    match spares.pop() {
        Some(bytes) => Ok(bytes),
        None => spare(alloc),
    }
}

/// Makes as many spare as are wanted.
pub(crate) fn fill(
    spares: &mut Vec<Vec<u8>>,
    alloc: Global,
    wanted: usize,
) -> Result<(), AllocError>
    requires { All IsSpare spares.old.items }
    ensures spares { All IsSpare spares.new.items }
    ensures none_lost { length spares.old.items ≤ length spares.new.items }
    ensures enough { OnOk result (wanted ≤ length spares.new.items) }
{
    for _ in spares.len()..wanted {
        let bytes = spare(alloc)?;
        spares.push(bytes)?;
    }
    Ok(())
}
