use block_pins::Pins;
use ssd_geo::{Look, Slot, Tag};
use std::test::Fail;

fn tag(actor: u8, call: u32) -> Tag {
    Tag { actor, call }
}

fn look(at: u32, sb: u16) -> Look {
    Look {
        at,
        row: 5,
        slot: Slot { sb, index: 3 },
        serial: 7,
        closed: true,
    }
}

// The open looks of superblocks 0 to 2, and of all.
fn seen(pins: &Pins) -> [u32; 4] {
    [pins.count(0), pins.count(1), pins.count(2), pins.total()]
}

#[test]
fn looks_are_pinned_and_found(rt: HostRuntime) -> Result<(), Fail> {
    let mut pins = Pins::new(rt.alloc(), 3)?;
    assert_eq!(rt; seen(&pins), [0, 0, 0, 0]);
    for (tag, look, after) in [
        (tag(0, 2), look(4, 1), [0, 1, 0, 1]),
        (tag(3, 0), look(9, 2), [0, 1, 1, 2]),
        (tag(1, 8), look(6, 1), [0, 2, 1, 3]),
    ] {
        assert_eq!(rt; pins.find(look.at), None);
        pins.pin(tag, look)?;
        assert_eq!(rt; pins.find(look.at), Some((tag, look)));
        assert_eq!(rt; seen(&pins), after, "after {}", look.at);
    }
    for (at, found, after) in [
        (5, None, [0, 2, 1, 3]),
        (4, Some((tag(0, 2), look(4, 1))), [0, 1, 1, 2]),
        (4, None, [0, 1, 1, 2]),
        (6, Some((tag(1, 8), look(6, 1))), [0, 0, 1, 1]),
        (9, Some((tag(3, 0), look(9, 2))), [0, 0, 0, 0]),
    ] {
        assert_eq!(rt; pins.find(at), found, "at {at}");
        assert_eq!(rt; pins.unpin(at), found, "at {at}");
        assert_eq!(rt; pins.find(at), None);
        assert_eq!(rt; seen(&pins), after, "after {at}");
    }
    Ok(())
}
