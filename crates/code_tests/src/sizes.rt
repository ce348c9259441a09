//! Shapes and places against the limits and a table worked out outside, and the types that hold lists.
use ssd_geo::*;
use std::test::Fail;

/// The sizes of a small drive with so many codewords a page, each of 48 bytes, its part of 24; it has 4 slots a superblock.
fn small(words: u8) -> Result<Shape, ShapeFault> {
    Shape::new(words, 1, 3, 4, 2, 64, 3, 6, 8, 8)
}

#[test]
fn shapes_are_refused_at_the_first_wrong_size(rt: HostRuntime) {
    // The arguments of `Shape::new`, and the number of the one that is out of its range.
    for (w, c, k, n, p, z, mb, nb, bytes, rows, field) in [
        (0, 1, 3, 4, 2, 64, 3, 6, 8, 8, 0),
        (3, 1, 3, 4, 2, 64, 3, 6, 8, 8, 0),
        (5, 1, 3, 4, 2, 64, 3, 6, 8, 8, 0),
        (8, 1, 3, 4, 2, 64, 3, 6, 8, 8, 0),
        (0, 0, 4, 4, 2, 64, 3, 6, 8, 8, 0),
        (1, 0, 0, 4, 2, 64, 3, 6, 8, 8, 1),
        (1, 9, 3, 4, 2, 64, 3, 6, 8, 8, 1),
        (1, 1, 2, 4, 2, 64, 3, 6, 8, 8, 2),
        (1, 1, 9, 4, 2, 64, 3, 6, 8, 8, 2),
        (1, 1, 3, 3, 2, 64, 3, 6, 8, 8, 3),
        (1, 1, 3, 257, 2, 64, 3, 6, 8, 8, 3),
        (1, 1, 3, 4, 1, 64, 3, 6, 8, 8, 4),
        (1, 1, 3, 4, 257, 64, 3, 6, 8, 8, 4),
        (1, 1, 3, 4, 2, 3, 3, 6, 8, 8, 5),
        (1, 1, 3, 4, 2, 1025, 3, 6, 8, 8, 5),
        (1, 1, 3, 4, 2, 64, 2, 6, 8, 8, 6),
        (1, 1, 3, 4, 2, 64, 17, 0, 8, 8, 6),
        (1, 1, 3, 4, 2, 64, 3, 3, 8, 8, 7),
        (1, 1, 3, 4, 2, 64, 3, 129, 8, 8, 7),
        (1, 1, 3, 4, 2, 4, 3, 4, 8, 8, 7),
        (1, 1, 3, 4, 2, 4, 3, 5, 8, 8, 7),
        (1, 8, 8, 17, 32, 1024, 3, 8, 8, 8, 7),
        (1, 1, 3, 4, 2, 64, 3, 6, 0, 8, 8),
        (1, 1, 3, 4, 2, 64, 3, 6, 9, 8, 8),
        (1, 1, 3, 4, 2, 64, 3, 4, 1, 8, 8),
        (1, 1, 3, 4, 2, 64, 3, 6, 8, 0, 9),
        (1, 1, 3, 4, 2, 64, 3, 6, 8, 9, 9),
        (2, 8, 8, 9, 32, 1024, 3, 8, 8, 8, 7),
        (2, 1, 3, 4, 2, 64, 3, 6, 33, 8, 8),
        (4, 1, 3, 4, 2, 64, 3, 6, 81, 8, 8),
    ] {
        let made = Shape::new(w, c, k, n, p, z, mb, nb, bytes, rows);
        assert_eq!(rt; made.err(), Some(ShapeFault { field }), "at {field}");
    }
}

#[test]
fn the_greatest_sizes_are_taken(rt: HostRuntime) {
    for (words, bytes) in [(1, 8), (2, 32), (4, 80)] {
        assert!(rt; small(words).is_ok(), "{words} codewords");
        assert!(rt;
            Shape::new(words, 1, 3, 4, 2, 64, 3, 6, bytes, 8).is_ok(),
            "{words} codewords"
        );
    }
    // Just 2^28 cells.
    for (words, superblocks, bytes, rows) in [
        (1, 16, 624, 3136),
        (2, 8, 1264, 1344),
        (4, 4, 2544, 448),
    ] {
        let made = Shape::new(words, 8, 8, superblocks, 32, 1024, 3, 8, bytes, rows);
        assert!(rt; made.is_ok(), "{words} codewords");
    }
}

#[test]
fn words_and_payloads_have_their_bytes(rt: HostRuntime) -> Result<(), Fail> {
    for (words, word, payload) in [(1, 48, 24), (2, 96, 48), (4, 192, 96)] {
        let shape = small(words)?;
        assert_eq!(rt; shape.slots(), 4);
        assert_eq!(rt; shape.code_bytes(), 48);
        assert_eq!(rt; shape.word_bytes(), word);
        assert_eq!(rt; shape.payload_bytes(), payload);
    }
    Ok(())
}

#[test]
fn slots_and_parities_stand_where_the_layout_says(rt: HostRuntime) -> Result<(), Fail> {
    let shape = small(1)?;
    // For each stripe its superblock, its number, its parity's die and its data dies.
    for (sb, stripe, parity, first, second) in [
        (0, 0, 0, 1, 2),
        (0, 1, 1, 0, 2),
        (1, 0, 1, 0, 2),
        (1, 1, 2, 0, 1),
        (2, 0, 2, 0, 1),
        (2, 1, 0, 1, 2),
        (3, 0, 0, 1, 2),
        (3, 1, 1, 0, 2),
    ] {
        assert!(rt; sb < shape.superblocks && stripe < shape.pages);
        assert_eq!(rt;
            shape.parity_place(sb, stripe),
            Place {
                die: parity,
                sb,
                page: stripe
            }
        );
        for (number, die) in [(0, first), (1, second)] {
            let index = stripe as u32 * 2 + number;
            assert!(rt; index < shape.slots());
            assert_eq!(rt;
                shape.place_of(Slot { sb, index }),
                Place {
                    die,
                    sb,
                    page: stripe
                }
            );
        }
    }
    Ok(())
}

#[test]
fn lists_keep_their_items(rt: HostRuntime) -> Result<(), Fail> {
    let listed = Items::new([1u8, 2].to_vec(rt.alloc())?);
    assert_eq!(rt; listed.len(), 2);
    assert!(rt; !listed.is_empty());
    assert_eq!(rt; listed.as_slice(), [1, 2].as_slice());
    let reply = Reply::Data {
        rung: 1,
        bytes: listed,
    };
    let other = Reply::Data {
        rung: 1,
        bytes: Items::new([1u8, 3].to_vec(rt.alloc())?),
    };
    assert!(rt; reply != other);
    let nested = Items::new(vec![in rt.alloc(); Items::new([7u32].to_vec(rt.alloc())?)]?);
    assert_eq!(rt; nested.into_vec().len(), 1);
    Ok(())
}

#[test]
fn words_have_the_bytes_of_their_text(rt: HostRuntime) -> Result<(), Fail> {
    let word = Word::new(String::from_str(rt.alloc(), "run")?);
    assert_eq!(rt; word.bytes(), b"run".as_slice());
    Ok(())
}
