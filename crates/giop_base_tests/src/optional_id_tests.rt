//! A small table, step by step, in which one entry has no id.

use giop_entry_table::{OptionalIdEntry, OptionalIdTable};
use std::process::Abort;
use std::test::Fail;

/// Adds an entry where there is room, and without an id only if each other one has an id.
fn put(table: &mut OptionalIdTable<u64>, key: Option<u32>, value: u64) -> Result<(), Fail> {
    if table.is_full() {
        return Err(Fail::from("room for an entry"));
    }
    match key {
        Some(key) => table.add(key, value),
        None => {
            if table.without_id().is_some() {
                return Err(Fail::from("no other entry without an id"));
            }
            table.add_without_id(value);
        }
    }
    Ok(())
}

/// Whether the entry that is removed has this id and this value.
fn is_taken(table: &mut OptionalIdTable<u64>, place: usize, id: Option<u32>, wanted: u64) -> bool {
    match table.take(place) {
        Some(OptionalIdEntry { key, value }) => key == id && value == wanted,
        None => false,
    }
}

#[test]
fn no_id_finds_the_entry_without_one(rt: HostRuntime) -> Result<(), Fail> {
    expect_found(&rt, &mut OptionalIdTable::new(rt.alloc(), 4)?)
}

fn expect_found(rt: &impl Abort, table: &mut OptionalIdTable<u64>) -> Result<(), Fail> {
    for (id, value) in [(Some(7), 70), (None, 80), (Some(0), 90), (Some(7), 71)] {
        put(table, id, value)?;
    }
    assert!(rt; table.is_full() && table.most() == 4 && table.len() == 4);
    assert!(rt; table.without_id() == Some(1));
    for (id, want) in [(7, Some(0)), (0, Some(2)), (8, None)] {
        assert!(rt; table.find(id) == want, "id {id}");
    }
    for (place, key, value) in [
        (0, Some(Some(7)), Some(70)),
        (1, Some(None), Some(80)),
        (2, Some(Some(0)), Some(90)),
        (4, None, None),
    ] {
        assert!(rt; table.key(place) == key, "place {place}");
        assert!(rt; table.get(place).copied() == value, "place {place}");
    }
    Ok(())
}

#[test]
fn the_entry_without_an_id_moves_up_and_is_taken(rt: HostRuntime) -> Result<(), Fail> {
    expect_moved(&rt, &mut OptionalIdTable::new(rt.alloc(), 3)?)
}

fn expect_moved(rt: &impl Abort, table: &mut OptionalIdTable<u64>) -> Result<(), Fail> {
    for (id, value) in [(Some(1), 10), (Some(2), 20), (None, 30)] {
        put(table, id, value)?;
    }
    assert!(rt; is_taken(table, 0, Some(1), 10) && table.without_id() == Some(1));
    if let Some(value) = table.get_mut(1) {
        *value = 35;
    }
    assert!(rt; table.get_mut(2).is_none() && table.find(0).is_none());
    put(table, Some(4), 40)?;
    assert!(rt; is_taken(table, 2, Some(4), 40) && table.without_id() == Some(1));
    assert!(rt; is_taken(table, 1, None, 35) && table.without_id().is_none());
    put(table, None, 50)?;
    assert!(rt; is_taken(table, 1, None, 50) && is_taken(table, 0, Some(2), 20));
    put(table, None, 60)?;
    table.clear();
    assert!(rt; table.len() == 0 && table.without_id().is_none());
    Ok(())
}
