ghost use Rattle.std.specs.Prelude.{◌≡◌, ◌≤◌, IsErrOf, OnErr, OnOk};
ghost use Rattle.span_base.specs.Counts.{Rose};
ghost use Rattle.span_base.specs.Taken.{Appends, AppendsFront};

use crate::Stream;
use span_base::DeviceFault;

/// Writes a whole piece, in as many calls as the stream needs.
pub fn write_whole<S: Stream>(stream: &mut S, piece: &[u8]) -> Result<(), DeviceFault>
    ensures all { OnOk result (Appends (S.taken stream.old) (S.taken stream.new) piece.now) }
    ensures front { OnErr result (AppendsFront (S.taken stream.old) (S.taken stream.new) piece.now) }
    ensures coming_stays { S.coming stream.new ≡ S.coming stream.old }

    ensures around_stays { S.around stream.new ≡ S.around stream.old }
    ensures faults_stay { S.faults stream.old ≤ S.faults stream.new }
    ensures failed { IsErrOf result DeviceFault.Failed → Rose (S.faults stream.old) (S.faults stream.new) }
{
    let mut written = 0;
    while written < piece.len() {
        written += stream.write(&piece[written..])?;
    }
    Ok(())
}
