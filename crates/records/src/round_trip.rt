ghost use Rattle.std.specs.Prelude.{◌≡◌, MatchResult};
ghost use Rattle.records.specs.Records.{Fits};
ghost use Rattle.records.specs.Writing.{Finished, Refused};

use crate::call::Call;
use crate::fault::RecordFault;
use crate::reader::read;
use crate::writer::Writer;

// Writes one call at the front of this memory, and says where its record ends. The call comes by value: so its
// fields are known to lie in their widths.
fn write_front(memory: &mut [u8], call: Call) -> Result<usize, RecordFault>
    ensures { MatchResult result
        (λ end. Fits call × Finished memory.old 0 call memory.new end)
        (λ f. Refused memory.old 0 call f memory.new 0) }
{
    let mut writer = Writer::new(memory);
    writer.write(&call)?;
    Ok(writer.written())
}

// Writes a call at the front of this memory and reads it back: what comes back is the call.
pub fn echo(memory: &mut [u8], call: &Call) -> Result<(Call, usize), RecordFault>
    ensures { MatchResult result
        (λ p. (p.0 ≡ call.now) × Finished memory.old 0 call.now memory.new p.1)
        (λ f. Refused memory.old 0 call.now f memory.new 0) }
{
    write_front(memory, *call)?;
    read(memory, 0)
}
