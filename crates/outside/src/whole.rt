// A source read to its end, and bytes written whole to a sink.
ghost use Rattle.std.specs.Prelude.{◌≤◌, ◌+◌, length, OnOk, OnErr, IfOk};
ghost use Rattle.std.specs.Io.KnownBytes.{Appends, Consumes, IsAtEnd};
ghost use Rattle.outside.specs.Causes.{HasCause, AppendsFront, LosesFront};
ghost use Rattle.outside.specs.Storing.{HasReadCause};

use crate::{Failed, Sink, Source, StoreFault};
use std::alloc::Global;

// How many bytes are pulled at a time, at most. They are on the stack, which may be small.
const PIECE: usize = 8192;

/// Takes all that is left, or the first `limit + 1` bytes where there are more: so a longer input shows by its
/// length. A source may give its bytes in pieces of any length.
pub fn take_all<S: Source>(alloc: Global, source: &mut S, limit: u64) -> Result<Vec<u8>, StoreFault>
    ensures bound { IfOk result (λ bytes. length bytes.items ≤ limit + 1) }
    ensures bytes { IfOk result (λ bytes. Consumes (S.left source.old) (S.left source.new) bytes.items) }
    ensures end { IfOk result (λ bytes. length bytes.items ≤ limit → IsAtEnd (S.left source.new)) }
    ensures err { OnErr result (LosesFront (S.left source.old) (S.left source.new)) }
    ensures cause { HasReadCause (S.faults source.old) (S.faults source.new) result }
{
    let mut bytes = Vec::new(alloc);
    let mut piece = [0u8; PIECE];
    'pulls: while bytes.len() as u64 <= limit {
        let room = (limit - bytes.len() as u64).min(PIECE as u64 - 1) as usize + 1;
        let count = source.pull(&mut piece[..room])?;
        bytes.extend_from_slice(&piece[..count])?;
        if count == 0 {
            break;
        }
    }
    Ok(bytes)
}

/// Writes all of the bytes. At a failure the sink has taken a front of them.
pub fn put_all<K: Sink>(sink: &mut K, bytes: &[u8]) -> Result<(), Failed>
    ensures ok { OnOk result (Appends (K.taken sink.old) (K.taken sink.new) bytes.now) }
    ensures err { OnErr result (AppendsFront (K.taken sink.old) (K.taken sink.new) bytes.now) }
    ensures cause { HasCause (K.faults sink.old) (K.faults sink.new) result }
{
    let mut at = 0;
    'pushes: while at < bytes.len() {
        let taken = sink.push(&bytes[at..])?;
        if taken == 0 {
            return Err(Failed);
        }
        at += taken;
    }
    Ok(())
}
