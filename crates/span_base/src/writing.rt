ghost use Rattle.std.specs.Prelude.{◌≤◌, IsErrOf, OnErr, OnOk};
ghost use Rattle.span_base.specs.Counts.{Rose};
ghost use Rattle.span_base.specs.Taken.{Appends, AppendsFront};

use crate::{DeviceFault, Sink};

/// Writes a whole piece, in as many calls as the sink needs.
pub fn write_all<K: Sink>(out: &mut K, piece: &[u8]) -> Result<(), DeviceFault>
    ensures all { OnOk result (Appends (K.taken out.old) (K.taken out.new) piece.now) }
    ensures front { OnErr result (AppendsFront (K.taken out.old) (K.taken out.new) piece.now) }

    ensures faults_stay { K.faults out.old ≤ K.faults out.new }
    ensures failed { IsErrOf result DeviceFault.Failed → Rose (K.faults out.old) (K.faults out.new) }
{
    let mut written = 0;
    while written < piece.len() {
        written += out.write(&piece[written..])?;
    }
    Ok(())
}
