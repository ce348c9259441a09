// Bytes that are read until there are enough or no more.
ghost use Rattle.std.specs.Prelude.{◌≡◌, ◌<◌, ◌≤◌, length, take, IfOk};
ghost use Rattle.std.specs.Io.KnownBytes.{Consumes, IsAtEnd};
ghost use Rattle.ssd_io.specs.FaultCounts.{MatchesCount};

use ssd_io::{Failed, Source};

/// Fills `into` with the next bytes, and answers how many there were.
#[tactic(auto, using(crate::proofs::Filling::filled_more))]
pub fn fill<S: Source>(input: &mut S, into: &mut [u8]) -> Result<usize, Failed>
    ensures bound { IfOk result (λ n. n ≤ length into.new) }
    ensures length { length into.new ≡ length into.old }
    ensures bytes { IfOk result (λ n. Consumes (S.left input.old) (S.left input.new) (take n into.new)) }
    ensures end { IfOk result (λ n. n < length into.new → IsAtEnd (S.left input.new)) }
    ensures cause { MatchesCount (S.faults input.old) (S.faults input.new) result }
{
    let mut at = 0;
    while at < into.len() {
        let given = input.read(&mut into[at..])?;
        if given == 0 {
            return Ok(at);
        }
        at += given;
    }
    Ok(at)
}
