// The senses of a look, up to the ladder's answer.
ghost use Rattle.std.specs.Prelude.{◌≡◌, [], length};
ghost use Rattle.chan_calls.specs.Caller.{SameCaller, Serves};
ghost use Rattle.chan_calls.specs.Climbing.{Climbs, EndsClimb, IsLadderOf, MayClimb};
ghost use Rattle.ssd_geo.specs.Coding.{word_bytes_in};

use crate::gate::{Gate, Moment, Point};
use crate::page_decoder::PageDecoder;
use crate::steps::Steps;
use chan_state::SenseAnswer;
use retry_ladder::{Ask, Ladder};
use ssd_geo::{Look, Tag};

/// How the senses of a look ended.
pub enum Climbed {
    /// The ladder has its answer.
    Answered,
    /// A sense failed: the call of this die did.
    Failed { die: u8 },
}

/// Makes the senses that the ladder of a look asks for, up to its answer or to one that fails.
pub fn climb<S: Steps, G: Gate>(
    ladder: &mut Ladder,
    decoder: &mut PageDecoder,
    word: &mut [u8],
    steps: &mut S,
    gate: &G,
    tag: Tag,
    look: &Look,
) -> Climbed
    requires actor { Serves (S.view steps.old) tag.actor }
    requires word { length word.old ≡ word_bytes_in ladder.old.shape }
    requires may { MayClimb ladder.old decoder.old.decoder.code decoder.old.decoder.limit
        (S.view steps.old) (S.stands steps.old) look.now }
    requires begun { Climbs ladder.old decoder.old.decoder.code decoder.old.decoder.limit
        (S.view steps.old) (S.view steps.old) (S.stands steps.old) (S.stands steps.old)
        tag look.now [] [] }
    ensures ladder { IsLadderOf ladder.old ladder.new }
    ensures decoder { decoder.new.decoder ≡ decoder.old.decoder }
    ensures caller { SameCaller (S.view steps.old) (S.view steps.new) }
    ensures ended { EndsClimb ladder.old ladder.new
        decoder.old.decoder.code decoder.old.decoder.limit
        (S.view steps.old) (S.view steps.new) (S.stands steps.old) (S.stands steps.new)
        tag look.now result }
{
    while let Ask::At { place, level } = ladder.ask() {
        match steps.sense(tag, look.at, place, level, word) {
            SenseAnswer::Sensed => {}
            SenseAnswer::DieFault { die } => return Climbed::Failed { die },
        }
        gate.pass(Point {
            tag,
            moment: Moment::Decode,
        });
        ladder.feed(decoder, word);
    }
    Climbed::Answered
}
