//! Bytes that are sent to a sink.

ghost use Rattle.std.specs.Prelude.{◌≡◌, ◌≢◌, ◌≤◌, length, take, true, false, OnOk, IfErr};
ghost use Rattle.std.specs.Io.KnownBytes.{Appends};
ghost use Rattle.sinks.specs.Sendings.{IsBegun, IsOfDevice, HasFailed};

use crate::sink::{Sink, SinkFault};

/// Why a text did not go out whole: its first `sent` bytes did, and nothing else.
#[derive(Clone, Copy, Debug)]
pub enum WriteFault {
    /// Memory ran out.
    Memory { sent: usize },
    /// The sink failed.
    Device { sent: usize },
}

/// Sends bytes to a sink.
///
/// # Errors
/// `Device` where the sink failed: the first bytes have gone out then, as many as it says, and nothing else. `Memory`
/// is never answered.
pub fn send<S: Sink>(bytes: &[u8], sink: &mut S) -> Result<(), WriteFault>
    ensures whole { OnOk result (Appends (S.got sink.old) (S.got sink.new) bytes.now) }
    ensures begun { IfErr result (IsBegun bytes.now (S.got sink.old) (S.got sink.new)) }
    ensures failed { IfErr result (HasFailed (S.failures sink.old) (S.failures sink.new)) }
    ensures device { IfErr result IsOfDevice }
    ensures well { OnOk result (S.failures sink.new ≡ S.failures sink.old) }
{
    let (sent, whole) = put_all(bytes, sink);
    if whole {
        Ok(())
    } else {
        Err(WriteFault::Device { sent })
    }
}

/// Sends bytes, and answers how many went out before the sink failed, and whether all did.
pub fn put_all<S: Sink>(bytes: &[u8], sink: &mut S) -> (usize, bool)
    ensures within { result.0 ≤ length bytes.now }
    ensures got { Appends (S.got sink.old) (S.got sink.new) (take result.0 bytes.now) }
    ensures all { result.1 ≡ true → result.0 ≡ length bytes.now }
    ensures failed { result.1 ≡ false → S.failures sink.new ≢ S.failures sink.old }
    ensures well { result.1 ≡ true → S.failures sink.new ≡ S.failures sink.old }
{
    let mut at = 0;
    while at < bytes.len() {
        let (_, rest) = bytes.split_at(at);
        match sink.put(rest) {
            Err(SinkFault) => return (at, false),
            Ok(0) => return (at, false),
            Ok(n) => at += n,
        }
    }
    (at, true)
}
