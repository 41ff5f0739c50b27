ghost use Rattle.std.specs.Prelude.{OnOk, OnErr};
ghost use Rattle.std.specs.Io.KnownBytes.{Appends};
ghost use Rattle.vub_base.specs.Causes.{HasCause};
ghost use Rattle.vub_stream.specs.Whole.{WritesFront};

use crate::sink::{Sink, SinkError};

/// Writes all of the text. Takes no memory.
///
/// # Errors
/// [`SinkError::Failed`] only where the sink's count of faults rose. A front of the text was written then.
pub fn write_all<K: Sink>(sink: &mut K, text: &[u8]) -> Result<(), SinkError>
    ensures ok { OnOk result (Appends (K.taken sink.old) (K.taken sink.new) text.now) }
    ensures err { OnErr result (WritesFront (K.taken sink.old) (K.taken sink.new) text.now) }
    ensures cause { HasCause (K.fault_count sink.old) (K.fault_count sink.new) result SinkError.Failed }
{
    let mut done: usize = 0;
    while done < text.len() {
        let count = sink.write(&text[done..])?;
        if count == 0 {
            return Err(SinkError::Failed);
        }
        done += count;
    }
    Ok(())
}
