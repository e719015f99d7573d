//! What was printed is sent to a sink.

ghost use Rattle.std.specs.Prelude.{◌≡◌, ◌≢◌, ◌<◌, ◌≤◌, ◌^◌, true, false, length, take};
ghost use Rattle.vm_state.specs.Output.{text_of};
ghost use Rattle.thread_runner.specs.Sendings.{IsPlace, SendsOn, sent_of};

use sinks::{Sink, put_all};
use vm_state::output::Output;

/// How many bytes the first prints have.
pub(crate) fn text_length(printed: &Output, count: usize) -> u128
    requires { count ≤ length printed.now }
    ensures is { result ≡ length (text_of (take count printed.now)) }
    ensures most { result < 2 ^ 64 }
{
    let all = printed.text_from(0).len();
    let behind = printed.text_from(count).len();
    (all - behind) as u128
}

/// Sends what was printed from a place on. It answers the place that it came to, and whether that is behind all.
pub(crate) fn send_further<S: Sink>(
    printed: &Output,
    from: usize,
    within: usize,
    sink: &mut S,
) -> (usize, usize, bool)
    requires { IsPlace printed.now from within }
    ensures place { IsPlace printed.now result.0 result.1 }
    ensures sends { SendsOn (text_of printed.now) (sent_of printed.now from within)
        (sent_of printed.now result.0 result.1) (S.got sink.old) (S.got sink.new) }
    ensures all { result.2 ≡ true → sent_of printed.now result.0 result.1 ≡ length (text_of printed.now) }
    ensures part { result.2 ≡ true → result.1 ≡ 0 }
    ensures failed { result.2 ≡ false → S.failures sink.new ≢ S.failures sink.old }
    ensures well { result.2 ≡ true → S.failures sink.new ≡ S.failures sink.old }
{
    let (_, rest) = printed.text_from(from).split_at(within);
    let (count, whole) = put_all(rest, sink);
    if whole {
        (printed.count(), 0, true)
    } else {
        (from, within + count, false)
    }
}
