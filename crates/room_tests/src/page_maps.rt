ghost use Rattle.std.specs.Prelude.{◌≡◌, ◌<◌, length};

use map_rows::Rows;
use ssd_geo::{Row, Slot};
use std::process::Abort;
use std::test::Fail;

fn slot(sb: u16, index: u32) -> Slot {
    Slot { sb, index }
}

fn page(sb: u16, index: u32, serial: u64) -> Row {
    Row::Page {
        slot: Slot { sb, index },
        serial,
    }
}

// Sets the row, where the value is in range and no other row names its slot.
fn put(rt: &impl Abort, map: &mut Rows, row: u32, to: Row) -> Row
    requires superblocks { map.old.superblocks ≡ 3 }
    requires slots { map.old.slots ≡ 4 }
    requires rows { length map.old.rows ≡ 4 }
    ensures superblocks { map.new.superblocks ≡ 3 }
    ensures slots { map.new.slots ≡ 4 }
    ensures rows { length map.new.rows ≡ 4 }
{
    assert!(rt; row < 4);
    if let Row::Page { slot, .. } = to {
        assert!(rt; slot.sb < 3);
        assert!(rt; slot.index < 4);
        let owner = map.owner(slot);
        assert!(rt; owner.is_none_or(|owner| owner == row));
    }
    map.set(row, to)
}

// The live pages of each superblock, and the index of the first one, or 4.
fn seen(map: &Rows) -> [(u32, u32); 3]
    requires superblocks { map.now.superblocks ≡ 3 }
{
    [seen_in(map, 0), seen_in(map, 1), seen_in(map, 2)]
}

fn seen_in(map: &Rows, sb: u16) -> (u32, u32)
    requires { sb < map.now.superblocks }
{
    (
        map.live(sb),
        map.first_live(sb).map_or(4, |slot| slot.index),
    )
}

#[test]
fn rows_are_set_and_found(rt: HostRuntime) -> Result<(), Fail> {
    let mut map = Rows::new(rt.alloc(), 4, 3, 4)?;
    assert_eq!(rt; seen(&map), [(0, 4), (0, 4), (0, 4)]);
    for (row, to, old, after) in [
        (0, page(0, 3, 7), Row::Empty, [(1, 3), (0, 4), (0, 4)]),
        (1, page(0, 1, 8), Row::Empty, [(2, 1), (0, 4), (0, 4)]),
        (0, page(2, 0, 9), page(0, 3, 7), [(1, 1), (0, 4), (1, 0)]),
        (3, page(2, 2, 10), Row::Empty, [(1, 1), (0, 4), (2, 0)]),
        (1, Row::Lost, page(0, 1, 8), [(0, 4), (0, 4), (2, 0)]),
        (0, Row::Empty, page(2, 0, 9), [(0, 4), (0, 4), (1, 2)]),
        (3, page(2, 2, 11), page(2, 2, 10), [(0, 4), (0, 4), (1, 2)]),
        (1, page(2, 3, 12), Row::Lost, [(0, 4), (0, 4), (2, 2)]),
    ] {
        assert_eq!(rt; put(&rt, &mut map, row, to), old, "row {row}");
        assert_eq!(rt; seen(&map), after, "after row {row}");
    }
    for (at, owner) in [
        (slot(2, 3), Some(1)),
        (slot(2, 2), Some(3)),
        (slot(2, 0), None),
        (slot(0, 3), None),
    ] {
        assert!(rt; at.sb < 3);
        assert!(rt; at.index < 4);
        assert_eq!(rt; map.owner(at), owner);
    }
    for (row, held) in [
        (0, Row::Empty),
        (1, page(2, 3, 12)),
        (2, Row::Empty),
        (3, page(2, 2, 11)),
    ] {
        assert!(rt; row < 4);
        assert_eq!(rt; map.row(row), held);
    }
    Ok(())
}
