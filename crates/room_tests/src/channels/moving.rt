ghost use Rattle.std.specs.Prelude.{◌<◌};
ghost use Rattle.room_tests.specs.SmallChannel.{IsTried};
ghost use Rattle.room_tests.specs.OpenLooks.{IsLooked};

use super::{
    FIRST, FaultyDie, SECOND, begun, entry, is_written, looked, read, slot, tag, write, write_entry,
};
use chan_state::{Channel, CondemnAnswer, LookAnswer, MoveAnswer};
use ssd_geo::{Entry, Kind, Look, Row, StepStop, Tag};
use std::test::Fail;
use victim::{Greedy, Policy};

// Moves the page of a look, and leaves the look.
pub(super) fn moved<P: Policy>(
    channel: &mut Channel<FaultyDie, P>,
    by: Tag,
    at: u32,
    word: &[u8; 48],
) -> MoveAnswer
    requires { IsLooked channel.old.kept by at }
    ensures { IsTried channel.new.kept }
{
    let answer = channel.move_if(by, at, word);
    channel.leave(by, at);
    answer
}

// Copies the page of a row: a look, a move of a word and its leave.
pub(super) fn copied<P: Policy>(
    channel: &mut Channel<FaultyDie, P>,
    call: u32,
    row: u32,
    word: &[u8; 48],
) -> Result<Option<MoveAnswer>, StepStop>
    requires tried { IsTried channel.old.kept }
    requires row { row < 8 }
    ensures { IsTried channel.new.kept }
{
    let by = tag(call);
    let LookAnswer::Found(look) = looked(channel, by, row)? else {
        return Ok(None);
    };
    Ok(Some(moved(channel, by, look.at, word)))
}

// The same, where another call writes the row after the look.
fn copied_late<P: Policy>(
    channel: &mut Channel<FaultyDie, P>,
    call: u32,
    writer: u32,
    row: u32,
    word: &[u8; 48],
) -> Result<Option<MoveAnswer>, StepStop>
    requires tried { IsTried channel.old.kept }
    requires row { row < 8 }
    ensures { IsTried channel.new.kept }
{
    let by = tag(call);
    let LookAnswer::Found(look) = looked(channel, by, row)? else {
        return Ok(None);
    };
    let _ = write(channel, writer, row, &SECOND)?;
    Ok(Some(moved(channel, by, look.at, word)))
}

// Makes the row of a look lost, and leaves the look.
fn condemned_for<P: Policy>(channel: &mut Channel<FaultyDie, P>, by: Tag, at: u32) -> CondemnAnswer
    requires { IsLooked channel.old.kept by at }
    ensures { IsTried channel.new.kept }
{
    let answer = channel.condemn_if(by, at);
    channel.leave(by, at);
    answer
}

// Condemns the row of a page: a look, the condemnation and its leave.
fn condemned<P: Policy>(
    channel: &mut Channel<FaultyDie, P>,
    call: u32,
    row: u32,
) -> Result<Option<CondemnAnswer>, StepStop>
    requires tried { IsTried channel.old.kept }
    requires row { row < 8 }
    ensures { IsTried channel.new.kept }
{
    let by = tag(call);
    let LookAnswer::Found(look) = looked(channel, by, row)? else {
        return Ok(None);
    };
    Ok(Some(condemned_for(channel, by, look.at)))
}

// Row 0 is written by call 7, and copied by call 8.
fn entries_of_a_copy() -> [Entry; 4] {
    let found = Row::Page {
        slot: slot(0, 0),
        serial: 7,
    };
    [
        write_entry(7, 0, slot(0, 0)),
        entry(
            8,
            Kind::Look {
                row: 0,
                found,
                closed: false,
            },
        ),
        entry(
            8,
            Kind::Move {
                at: 1,
                slot: slot(0, 1),
            },
        ),
        entry(8, Kind::Leave { at: 1 }),
    ]
}

#[test]
fn a_copy_keeps_the_serial_of_its_page(rt: HostRuntime) -> Result<(), Fail> {
    let mut channel = begun(rt.alloc(), Greedy::new(), 4096)?;
    assert!(rt; is_written(write(&mut channel, 7, 0, &FIRST), slot(0, 0)));
    let moved = MoveAnswer::Moved { slot: slot(0, 1) };
    assert_eq!(rt; copied(&mut channel, 8, 0, &FIRST), Ok(Some(moved)));
    let history = entries_of_a_copy();
    assert_eq!(rt; channel.history(), history.as_slice());
    let look = Look {
        at: 4,
        row: 0,
        slot: slot(0, 1),
        serial: 7,
        closed: true,
    };
    let mut out = [0; 48];
    assert_eq!(rt;
        read(&mut channel, 9, 0, 0, &mut out),
        Ok(LookAnswer::Found(look))
    );
    assert_eq!(rt; out, FIRST);
    Ok(())
}

#[test]
fn a_row_that_was_written_since_its_look_is_not_copied(rt: HostRuntime) -> Result<(), Fail> {
    let mut channel = begun(rt.alloc(), Greedy::new(), 4096)?;
    assert!(rt; is_written(write(&mut channel, 0, 3, &FIRST), slot(0, 0)));
    let row = Row::Page {
        slot: slot(0, 1),
        serial: 2,
    };
    let changed = MoveAnswer::Changed { row };
    assert_eq!(rt;
        copied_late(&mut channel, 1, 2, 3, &FIRST),
        Ok(Some(changed))
    );
    let added = entry(1, Kind::Changed { at: 1, found: row });
    assert_eq!(rt; channel.history().get(3), Some(&added));
    assert_eq!(rt; channel.history().len(), 5);
    let mut out = [0; 48];
    let _ = read(&mut channel, 4, 3, 0, &mut out)?;
    assert_eq!(rt; out, SECOND);
    Ok(())
}

#[test]
fn a_copy_without_room_stays(rt: HostRuntime) -> Result<(), Fail> {
    let mut channel = begun(rt.alloc(), Greedy::new(), 4096)?;
    for call in 0..12 {
        let _ = write(&mut channel, call, call % 8, &FIRST)?;
    }
    assert_eq!(rt;
        copied(&mut channel, 12, 0, &FIRST),
        Ok(Some(MoveAnswer::NoRoom))
    );
    let stays = entry(
        12,
        Kind::Stay {
            at: 12,
            worn: false,
        },
    );
    assert_eq!(rt; channel.history().get(13), Some(&stays));
    Ok(())
}

#[test]
fn a_condemned_row_is_lost(rt: HostRuntime) -> Result<(), Fail> {
    let mut channel = begun(rt.alloc(), Greedy::new(), 4096)?;
    assert!(rt; is_written(write(&mut channel, 0, 5, &FIRST), slot(0, 0)));
    let lost = Ok(Some(CondemnAnswer::Condemned));
    assert_eq!(rt; condemned(&mut channel, 1, 5), lost);
    let added = entry(1, Kind::Condemn { at: 1 });
    assert_eq!(rt; channel.history().get(2), Some(&added));
    let mut out = [0; 48];
    assert_eq!(rt; read(&mut channel, 2, 5, 0, &mut out), Ok(LookAnswer::Lost));
    Ok(())
}
