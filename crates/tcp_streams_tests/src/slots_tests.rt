//! The slot of the least rank, the index of a slot's key, the order of many keys, and the last slot of an order.

use std::test::Fail;
use tcp_slots::{Order, Ranks, SlotTable};

/// Ranks that five slots get one after another, and the slot that has a lesser rank then than each other, if there is one.
const RANKS: [(u32, u128, Option<u32>); 9] = [
    (0, 7, None),
    (1, 3, None),
    (2, 1 << 65, None),
    (3, 2, Some(4)),
    (4, 5, Some(3)),
    (3, 8, Some(1)),
    (1, 5, None),
    (4, 6, Some(1)),
    (1, 1 << 66, Some(4)),
];

#[test]
fn the_slot_of_the_least_rank_is_first(rt: HostRuntime) -> Result<(), Fail> {
    let mut ranks = Ranks::new(rt.alloc(), 5, 0)?;
    for (slot, rank, first) in RANKS {
        ranks.set(slot, rank);
        assert_eq!(rt; ranks.unique_least(), first, "rank {rank} of room {slot}");
    }
    Ok(())
}

/// Keys and their slots.
const KEYS: [(u32, u32); 3] = [(20, 1), (10, 3), (30, 0)];

/// Slots, and their keys with the indices of these.
const PLACES: [(u32, Option<(u32, usize)>); 5] = [
    (0, Some((30, 2))),
    (1, Some((20, 1))),
    (2, None),
    (3, Some((10, 0))),
    (9, None),
];

#[test]
fn the_key_of_a_slot_stands_at_its_index(rt: HostRuntime) -> Result<(), Fail> {
    let mut table = SlotTable::new(rt.alloc(), 4)?;
    for (key, slot) in KEYS {
        assert!(rt; !table.is_full() && slot < 4 && table.index_of_slot(slot).is_none());
        let index = match table.index(&key) {
            Ok(index) => index,
            Err(index) => index,
        };
        table.add(index, key, slot);
    }
    for (slot, wanted) in PLACES {
        assert_eq!(rt;
            table.index_of_slot(slot),
            wanted.map(|(_, index)| index),
            "room {slot}"
        );
        assert_eq!(rt;
            table.last_key(slot).copied(),
            wanted.map(|(key, _)| key),
            "room {slot}"
        );
    }
    Ok(())
}

/// So many keys take several blocks of slots. It is a prime, so that the multiples of a number below it are as many.
const MANY: u32 = 9_001;

#[test]
fn many_keys_stand_in_their_order(rt: HostRuntime) -> Result<(), Fail> {
    let mut table = SlotTable::new(rt.alloc(), 9_001)?;
    for slot in 0..MANY {
        let key = slot * 4_099 % MANY;
        assert!(rt; !table.is_full() && table.index_of_slot(slot).is_none());
        let index = match table.index(&key) {
            Ok(index) => index,
            Err(index) => index,
        };
        table.add(index, key, slot);
    }
    for number in 0..MANY / 2 {
        let index = number as usize;
        assert!(rt; index < table.len());
        assert_eq!(rt; *table.key(index), 2 * number, "before a key goes");
        table.forget(index);
        assert!(rt; index < table.len());
        assert_eq!(rt; *table.key(index), 2 * number + 1, "behind a key that goes");
    }
    assert_eq!(rt; table.len(), 4_501);
    Ok(())
}

#[test]
fn the_last_slot_of_an_order_is_popped(rt: HostRuntime) -> Result<(), Fail> {
    let mut order = Order::new(rt.alloc(), 3)?;
    order.insert(0, 7);
    order.insert(1, 9);
    order.insert(1, 8);
    for slot in [9, 8, 7] {
        assert!(rt; order.len() > 0);
        assert_eq!(rt; order.pop(), slot);
    }
    assert_eq!(rt; order.len(), 0);
    Ok(())
}
