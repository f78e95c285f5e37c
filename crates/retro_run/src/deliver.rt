//! How a text is written, what waits is sent, and all arrives.

ghost use Rattle.std.specs.Prelude.{◌≡◌, [], Some, IfErr, OnErr, OnOk};
ghost use Rattle.retro_io.specs.Faults.{CountsFaults};
ghost use Rattle.retro_io.specs.Flushes.{EndsWithFailedSend, EndsWithFailedWrite, StaysUnflushed};
ghost use Rattle.retro_io.specs.Sink.{Appends, AppendsProperPrefix};
ghost use Rattle.retro_run.specs.Delivery.{StandsAt};
ghost use Rattle.retro_run.specs.Stop.{stops_at_write};

use crate::stop::Stop;
use retro_io::{Failed, SendingSink, Sink, put_all};

/// Writes a text, by calls of `write` alone.
pub(crate) fn append<K: SendingSink>(text: &[u8], sink: &mut K) -> Result<(), Stop>
    ensures appended { OnOk result (Appends (K.written sink.old) text.now (K.written sink.new)) }
    ensures unflushed { OnOk result (StaysUnflushed ⟦<K as Sink>⟧ K.sends sink.old sink.new) }
    ensures failed { IfErr result (λ stop. stop ≡ Stop.WriteFault) }
    ensures part { OnErr result (AppendsProperPrefix (K.written sink.old) text.now (K.written sink.new)) }
    ensures last { OnErr result (EndsWithFailedWrite ⟦<K as Sink>⟧ K.sends sink.old sink.new) }
    ensures faults { CountsFaults (stops_at_write result) (K.faults sink.old) (K.faults sink.new) }
{
    put_all(sink, text)?;
    Ok(())
}

/// Lets go on what waits at the sink.
pub(crate) fn send<K: SendingSink>(sink: &mut K) -> Result<(), Stop>
    ensures written { K.written sink.new ≡ K.written sink.old }
    ensures sent { OnOk result (K.waiting sink.new ≡ []) }
    ensures unflushed { OnOk result (StaysUnflushed ⟦<K as Sink>⟧ K.sends sink.old sink.new) }
    ensures failed { IfErr result (λ stop. stop ≡ Stop.WriteFault) }
    ensures last { OnErr result (EndsWithFailedSend ⟦<K as Sink>⟧ K.sends sink.old sink.new) }
    ensures faults { CountsFaults (stops_at_write result) (K.faults sink.old) (K.faults sink.new) }
{
    match sink.send() {
        Ok(()) => Ok(()),
        Err(Failed) => Err(Stop::WriteFault),
    }
}

/// Writes a text, and sees to it that it arrives.
pub(crate) fn deliver<K: SendingSink>(text: &[u8], sink: &mut K) -> Result<(), Stop>
    ensures stands { StandsAt ⟦<K as Sink>⟧ K.sends (Some text.now) sink.old sink.new result }
    ensures sent { OnOk result (K.waiting sink.new ≡ []) }
    ensures failed { IfErr result (λ stop. stop ≡ Stop.WriteFault) }
    ensures faults { CountsFaults (stops_at_write result) (K.faults sink.old) (K.faults sink.new) }
{
    append(text, sink)?;
    match sink.flush() {
        Ok(()) => Ok(()),
        Err(Failed) => Err(Stop::WriteFault),
    }
}
