//! A small table, step by step, and a large one, filled, searched and emptied twice.

use giop_entry_table::{Entry, EntryTable};
use std::process::Abort;
use std::test::Fail;

/// How many entries the large table has.
const MANY: u32 = 4096;

/// Adds an entry where there is room.
fn put(table: &mut EntryTable<u64>, key: u32, value: u64) -> Result<(), Fail> {
    if table.is_full() {
        return Err(Fail::from("room for an entry"));
    }
    table.add(key, value);
    Ok(())
}

/// Whether the entry that is removed has this id and this value.
fn is_taken(table: &mut EntryTable<u64>, place: usize, id: u32, wanted: u64) -> bool {
    match table.take(place) {
        Some(Entry { key, value }) => key == id && value == wanted,
        None => false,
    }
}

#[test]
fn entries_stand_in_the_order_of_being_added(rt: HostRuntime) -> Result<(), Fail> {
    expect_order(&rt, &mut EntryTable::new(rt.alloc(), 3)?)
}

fn expect_order(rt: &impl Abort, table: &mut EntryTable<u64>) -> Result<(), Fail> {
    for (id, value) in [(7, 70), (9, 90), (7, 71)] {
        put(table, id, value)?;
    }
    assert!(rt; table.is_full() && table.most() == 3 && table.len() == 3);
    for (id, want) in [(7, Some(0)), (9, Some(1)), (8, None)] {
        assert!(rt; table.find(id) == want, "id {id}");
    }
    for (place, key, value) in [
        (0, Some(7), Some(70)),
        (1, Some(9), Some(90)),
        (2, Some(7), Some(71)),
        (3, None, None),
    ] {
        assert!(rt; table.key(place) == key, "place {place}");
        assert!(rt; table.get(place).copied() == value, "place {place}");
    }
    Ok(())
}

#[test]
fn those_behind_an_entry_that_is_taken_move_up(rt: HostRuntime) -> Result<(), Fail> {
    expect_moves(&rt, &mut EntryTable::new(rt.alloc(), 3)?)
}

fn expect_moves(rt: &impl Abort, table: &mut EntryTable<u64>) -> Result<(), Fail> {
    for id in 1..4 {
        put(table, id, u64::from(id) * 10)?;
    }
    assert!(rt; is_taken(table, 1, 2, 20) && table.take(2).is_none());
    assert!(rt; table.len() == 2 && table.find(2).is_none() && table.find(3) == Some(1));
    if let Some(value) = table.get_mut(1) {
        *value = 35;
    }
    assert!(rt; table.get_mut(2).is_none());
    put(table, 4, 40)?;
    for (key, value) in [(1, 10), (3, 35), (4, 40)] {
        assert!(rt; is_taken(table, 0, key, value), "id {key}");
    }
    Ok(())
}

#[test]
fn each_of_many_is_found_and_none_once_all_are_gone(rt: HostRuntime) -> Result<(), Fail> {
    expect_many(&rt, &mut EntryTable::new(rt.alloc(), MANY as usize)?)
}

fn expect_many(rt: &impl Abort, table: &mut EntryTable<u64>) -> Result<(), Fail> {
    for _ in 0..2 {
        fill(table)?;
        assert!(rt; table.is_full() && finds_all(table));
        assert!(rt; is_taken(table, 2000, 2000, 6000));
        assert!(rt; table.find(2000).is_none() && table.find(4095) == Some(4094));
        table.clear();
        assert!(rt; table.len() == 0 && table.find(0).is_none());
    }
    Ok(())
}

/// Adds the ids from 0 on, each with a value three times as great.
fn fill(table: &mut EntryTable<u64>) -> Result<(), Fail> {
    for id in 0..MANY {
        put(table, id, u64::from(id) * 3)?;
    }
    Ok(())
}

/// Whether ids at the ends of what is looked through at once are found, and the first that is too great is not.
fn finds_all(table: &EntryTable<u64>) -> bool {
    for id in [0, 1, 63, 64, 65, 127, 128, 4031, 4032, 4094, 4095] {
        if table.find(id) != Some(id as usize) {
            return false;
        }
    }
    table.find(MANY).is_none()
}
