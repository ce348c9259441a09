// One write of data to a row.
ghost use Rattle.std.specs.Prelude.{◌≡◌, ◌<◌, ◌^◌, length};
ghost use Rattle.chan_calls.specs.Caller.{HasStepRoom, SameCaller, Serves, TakesData};
ghost use Rattle.chan_calls.specs.Calls.{WritesData};
ghost use Rattle.chan_calls.specs.Stepping.{IsStepped, MakesWrite, OfEachBase};
ghost use Rattle.chan_calls.specs.Workers.{MayCall};
ghost use Rattle.ssd_histories.specs.PastRows.{serial_of};

use super::Worker;
use crate::encoding::encode_page;
use crate::gate::{Gate, Moment, Point};
use crate::steps::Steps;
use chan_state::WriteAnswer;
use page_head::payload_into;
use ssd_geo::{StepStop, Tag};

// The serial of a call's write.
fn serial_of(session: u32, tag: Tag) -> u64
    requires { session < 2 ^ 24 }
    ensures { result ≡ serial_of session tag }
{
    (session as u64) * (1 << 40) + (tag.actor as u64) * (1 << 32) + tag.call as u64
}

impl Worker {
    /// Writes data to a row once: where a program answers FAIL, or the host has no room, nothing more is
    /// tried.
    pub fn write_once<S: Steps, G: Gate>(
        &mut self,
        steps: &mut S,
        gate: &G,
        tag: Tag,
        row: u32,
        bytes: &[u8],
    ) -> Result<WriteAnswer, StepStop>
        requires actor { Serves (S.view steps.old) tag.actor }
        requires row { row < self.old.shape.rows }
        requires bytes { length bytes.now ≡ self.old.shape.bytes }
        requires takes { TakesData (S.view steps.old) tag bytes.now }
        requires may { MayCall self.old (S.view steps.old) (S.stands steps.old) }
        ensures worker { self.new ≡ self.old }
        ensures caller { SameCaller (S.view steps.old) (S.view steps.new) }
        ensures made { IsStepped HasStepRoom
            (MakesWrite (OfEachBase (S.view steps.old) (S.stands steps.old)) tag row) tag
            (S.view steps.old) (S.view steps.new) result }
        ensures goes_on { WritesData self.old
            (S.view steps.old) (S.view steps.new) (S.stands steps.old) (S.stands steps.new)
            tag bytes.now }
    {
        let serial = serial_of(self.session, tag);
        payload_into(&self.shape, serial, row, bytes, &mut self.room.payload);
        gate.pass(Point {
            tag,
            moment: Moment::Encode,
        });
        encode_page(
            &self.shape,
            self.decoder.code(),
            &self.room.payload,
            &mut self.room.code,
            &mut self.room.word,
        );
        steps.write(tag, row, &self.room.word)
    }
}
