// A channel that begins with what was read.
ghost use Rattle.std.specs.Prelude.{◌≡◌, ◌<◌, IfOk};

use crate::images::{Contents, blank_dies, full_image, read_image};
use chan_state::{Channel, LookAnswer};
use die_model::SimDie;
use saved_drive::begin_channels;
use ssd_geo::{Slot, Tag};
use ssd_io::SureSource;
use std::alloc::Global;
use std::test::Fail;
use victim::Greedy;

// How many rows the channel has.
const ROW_COUNT: u32 = 8;

// The channel of the image, which took three of four dies.
fn begun(alloc: Global) -> Result<Channel<SimDie, Greedy>, Fail>
    ensures { IfOk result (λ channel. channel.kept.shape.rows ≡ ROW_COUNT) }
{
    let mut source = SureSource::new(full_image(alloc)?);
    let mut dies = blank_dies(alloc, 4)?;
    let Ok(read) = read_image(alloc, &mut source, &mut dies) else {
        return Err("not read".into());
    };
    let Contents { head, bases } = read;
    if head.shape.channels != 1 || head.shape.rows != ROW_COUNT {
        return Err("another drive".into());
    }
    let mut policies = Vec::new(alloc);
    policies.push(Greedy::new())?;
    let Ok(mut channels) = begin_channels(alloc, &head, bases, &mut dies, policies, 1024) else {
        return Err("not begun".into());
    };
    if dies.len() != 1 {
        return Err("a die is missing".into());
    }
    Ok(channels.remove(0))
}

// What a look at a row finds.
fn looked(alloc: Global, row: u32) -> Result<LookAnswer, Fail>
    requires { row < ROW_COUNT }
{
    let mut channel = begun(alloc)?;
    let tag = Tag { actor: 0, call: 0 };
    let Ok(answer) = channel.look(tag, row) else {
        return Err("no room".into());
    };
    let (dies, history, parts) = channel.finish();
    if dies.len() != 3 || history.is_empty() {
        return Err("no entry".into());
    }
    if parts.rows.len() != ROW_COUNT as usize {
        return Err("a row is missing".into());
    }
    Ok(answer)
}

#[test]
fn a_channel_begins_with_the_page(rt: HostRuntime) -> Result<(), Fail> {
    let LookAnswer::Found(look) = looked(rt.alloc(), 5)? else {
        return Err("no page".into());
    };
    assert_eq!(rt; look.slot, Slot { sb: 0, index: 0 });
    assert_eq!(rt; look.serial, 0);
    assert!(rt; !look.closed);
    assert!(rt; matches!(looked(rt.alloc(), 4)?, LookAnswer::Empty));
    Ok(())
}
