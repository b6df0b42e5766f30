// Pieces on their way from a source and to a sink.
ghost use Rattle.std.specs.Prelude.{◌≡◌, [], ◌<◌, ◌≤◌, Ok, Err, IfOk, IfSome, OnOk, OnErr, length, take};
ghost use Rattle.hit_script.specs.Ends.{Read, Rose, TakesAll, TakesFront};

use crate::sinks::{Sink, SinkFault};
use crate::sources::{Failed, Source};

/// Reads at most `room` bytes to the front of `piece`, and answers how many: none at the end of the input.
pub fn read_piece<S: Source>(source: &mut S, piece: &mut [u8], room: usize) -> Result<usize, Failed>
    requires some { 0 < room }
    requires room { room ≤ length piece.old }
    ensures within { IfOk result (λ n. n ≤ room) }
    ensures read { IfOk result (λ n. Read (S.left source.old) (take n piece.new) (S.left source.new)) }
    ensures end { result ≡ Ok 0 → IfSome (S.left source.new) (λ rest. rest ≡ []) }
    ensures failed { OnErr result (Rose (S.faults source.old) (S.faults source.new)) }
    ensures unchanged { OnErr result (S.left source.new ≡ S.left source.old) }
    ensures never_falls { S.faults source.old ≤ S.faults source.new }
{
    source.read(&mut piece[..room])
}

/// Hands all bytes to the sink. Where it fails the sink has taken a front of them.
pub fn write_all<K: Sink>(sink: &mut K, bytes: &[u8]) -> Result<(), SinkFault>
    ensures ok { OnOk result (TakesAll (K.taken sink.old) (K.taken sink.new) bytes.now) }
    ensures part { TakesFront (K.taken sink.old) (K.taken sink.new) bytes.now }
    ensures failed { result ≡ Err SinkFault.Failed → Rose (K.faults sink.old) (K.faults sink.new) }
    ensures never_falls { K.faults sink.old ≤ K.faults sink.new }
{
    let mut at = 0;
    while at < bytes.len() {
        at += sink.write(&bytes[at..])?;
    }
    Ok(())
}
