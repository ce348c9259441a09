// What takes bytes.
ghost use Rattle.std.specs.Prelude.{◌≡◌, ℕ, ◌<◌, List, [], length, Option, OnOk, OnErr, Ok};
ghost use Rattle.std.specs.Io.KnownBytes.{Appends, WriteAppends};
ghost use Rattle.ssd_io.specs.FaultCounts.{MatchesCount};
ghost use Rattle.ssd_io.specs.Pieces.{TakesSome, AppendsFront};

use crate::Failed;

/// What takes bytes in order. A sink that tells what was written goes on telling it.
pub trait Sink {
    /// The bytes written, where they are told.
    ghost written: { Self → Option (List ℕ) };

    /// The count of faults.
    ghost faults: { Self → ℕ };

    /// Appends the first bytes of `piece`, at least one, and answers how many. A sink that would take none
    /// counts a fault and fails.
    fn write(&mut self, piece: &[u8]) -> Result<usize, Failed>
        requires { 0 < length piece.now }
        ensures bound { TakesSome result piece.now }
        ensures bytes { WriteAppends (written self.old) (written self.new) result piece.now }
        ensures cause { MatchesCount (faults self.old) (faults self.new) result };
}

/// Writes all the bytes, in as many calls as the sink takes.
#[tactic(auto, using(crate::proofs::Appending::appends_more))]
pub fn write_all<O: Sink>(out: &mut O, bytes: &[u8]) -> Result<(), Failed>
    ensures all { OnOk result (Appends (O.written out.old) (O.written out.new) bytes.now) }
    ensures front { OnErr result (AppendsFront (O.written out.old) (O.written out.new) bytes.now) }
    ensures cause { MatchesCount (O.faults out.old) (O.faults out.new) result }
    ensures nothing { bytes.now ≡ [] → (result ≡ Ok tt) × (out.new ≡ out.old) }
{
    let mut at = 0;
    while at < bytes.len() {
        at += out.write(&bytes[at..])?;
    }
    Ok(())
}
