//! Rolls of numbers and of records, and keys that have no order.
use crate::entries::Roll;
use crate::key::{Keyed, Ranked};
use crate::not_added::NotAdded;
use crate::search::{count_key, holds_key};
use std::process::Abort;
use std::test::Fail;

// A record with its number as the key.
#[derive(Clone, Copy)]
struct Note {
    place: u16,
    answer: bool,
}

impl Keyed for Note {
    type Key = u16;

    ghost key = { λ n. n.place };

    fn key(&self) -> u16 {
        self.place
    }

    fn has_key(&self, wanted: &u16) -> bool {
        self.place == *wanted
    }
}

// An entry whose key can only be told equal.
#[derive(Clone, Copy)]
struct Tagged {
    tag: [u8; 8],
}

impl Keyed for Tagged {
    type Key = [u8; 8];

    ghost key = { λ t. t.tag };

    fn key(&self) -> [u8; 8] {
        self.tag
    }

    fn has_key(&self, wanted: &[u8; 8]) -> bool {
        self.tag == *wanted
    }
}

fn adds<T: Keyed + Copy>(
    rt: &impl Abort,
    roll: &mut Roll<T>,
    entry: T,
    wanted: Result<(), NotAdded>,
)
where
    T::Key: Ranked,
{
    assert_eq!(rt; roll.add(entry), wanted);
}

fn lists(rt: &impl Abort, roll: &Roll<u16>, wanted: &[u16]) {
    assert!(rt; roll.in_use() == wanted);
}

#[test]
fn added_in_order(rt: HostRuntime) {
    let mut slots = [0; 3];
    let mut roll = Roll::over(&mut slots);
    adds(&rt, &mut roll, 5, Ok(()));
    adds(&rt, &mut roll, 7, Ok(()));
    lists(&rt, &roll, &[5, 7]);
    assert_eq!(rt; roll.len(), 2);
}

#[test]
fn added_out_of_order(rt: HostRuntime) {
    let mut slots = [0; 3];
    let mut roll = Roll::over(&mut slots);
    adds(&rt, &mut roll, 7, Ok(()));
    adds(&rt, &mut roll, 2, Ok(()));
    adds(&rt, &mut roll, 5, Ok(()));
    lists(&rt, &roll, &[2, 5, 7]);
}

#[test]
fn held_comes_before_full(rt: HostRuntime) {
    let mut slots = [0; 1];
    let mut roll = Roll::over(&mut slots);
    adds(&rt, &mut roll, 7, Ok(()));
    adds(&rt, &mut roll, 7, Err(NotAdded::Held));
    adds(&rt, &mut roll, 3, Err(NotAdded::Full));
    lists(&rt, &roll, &[7]);
}

#[test]
fn without_room(rt: HostRuntime) {
    let mut slots = [];
    let mut roll = Roll::over(&mut slots);
    adds(&rt, &mut roll, 0, Err(NotAdded::Full));
    assert!(rt; roll.capacity() == 0 && roll.len() == 0);
}

// Adds three numbers in ascending order, with the answer that is wanted to the last.
fn three(rt: &impl Abort, roll: &mut Roll<u16>, last: Result<(), NotAdded>) {
    adds(rt, roll, 5, Ok(()));
    adds(rt, roll, 7, Ok(()));
    adds(rt, roll, 9, last);
}

#[test]
fn exactly_full(rt: HostRuntime) {
    let mut slots = [0; 3];
    let mut roll = Roll::over(&mut slots);
    three(&rt, &mut roll, Ok(()));
    assert!(rt; roll.len() == roll.capacity());
    lists(&rt, &roll, &[5, 7, 9]);
}

#[test]
fn one_entry_short(rt: HostRuntime) {
    let mut slots = [0; 2];
    let mut roll = Roll::over(&mut slots);
    three(&rt, &mut roll, Err(NotAdded::Full));
    lists(&rt, &roll, &[5, 7]);
}

// A spare entry is neither held nor counted.
#[test]
fn spare_entries(rt: HostRuntime) {
    let mut slots = [4; 3];
    let mut roll = Roll::over(&mut slots);
    assert!(rt; !roll.holds(&4));
    adds(&rt, &mut roll, 4, Ok(()));
    assert!(rt; roll.holds(&4));
    assert_eq!(rt; roll.count(&4), 1);
}

fn noted(place: u16, answer: bool) -> Note {
    Note { place, answer }
}

fn answers(rt: &impl Abort, notes: &[Note], wanted: [bool; 2]) -> Result<(), Fail> {
    match notes {
        [first, second] => {
            assert!(rt; first.answer == wanted[0] && second.answer == wanted[1]);
            Ok(())
        },
        _ => Err(Fail::new("two entries are in use")),
    }
}

#[test]
fn records(rt: HostRuntime) -> Result<(), Fail> {
    let mut slots = [noted(0, false); 2];
    let mut roll = Roll::over(&mut slots);
    adds(&rt, &mut roll, noted(9, true), Ok(()));
    adds(&rt, &mut roll, noted(3, false), Ok(()));
    answers(&rt, roll.in_use(), [false, true])
}

#[test]
fn every_entry_in_use(rt: HostRuntime) {
    assert!(rt; holds_key(&[5u16, 2, 5], &2));
    assert_eq!(rt; count_key(&[5u16, 2, 5], &5), 2);
}

fn has_tag(rt: &impl Abort, tags: &[Tagged], tag: &[u8; 8], wanted: usize) {
    assert!(rt; holds_key(tags, tag) == (wanted > 0));
    assert_eq!(rt; count_key(tags, tag), wanted);
}

#[test]
fn keys_without_an_order(rt: HostRuntime) {
    let tags = [Tagged { tag: [2; 8] }, Tagged { tag: [1; 8] }];
    has_tag(&rt, &tags, &[1; 8], 1);
    has_tag(&rt, &tags, &[3; 8], 0);
}
