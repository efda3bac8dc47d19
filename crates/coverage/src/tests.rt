//! Worked values on three positions. Bit g of the table's one byte says whether the mask g is a group.
use crate::groups::Groups;
use domain::limits::MOST_POSITIONS;
use domain::refusal::Refusal;

fn groups(table: &[u8], positions: u8) -> Groups<'_> {
    Groups { table, positions }
}

// 3, 5, 6 and 7: the pairs of 7 are covered by the other three.
#[test]
fn core_of_all_pairs(rt: HostRuntime) {
    let table = [0b1110_1000u8];
    assert_eq!(rt; groups(&table, 3).is_core(3), true);
    assert_eq!(rt; groups(&table, 3).is_core(5), true);
    assert_eq!(rt; groups(&table, 3).is_core(6), true);
    assert_eq!(rt; groups(&table, 3).is_core(7), false);
    assert_eq!(rt; groups(&table, 3).core_count(), Ok(3));
}

// 3, 6 and 7: only 7 covers the positions 0 and 2 together.
#[test]
fn core_with_the_whole(rt: HostRuntime) {
    let table = [0b1100_1000u8];
    assert_eq!(rt; groups(&table, 3).is_core(3), true);
    assert_eq!(rt; groups(&table, 3).is_core(5), false);
    assert_eq!(rt; groups(&table, 3).is_core(6), true);
    assert_eq!(rt; groups(&table, 3).is_core(7), true);
    assert_eq!(rt; groups(&table, 3).core_count(), Ok(3));
}

// The pair 0, 2 is covered in the window 7, and in no smaller one.
#[test]
fn windows(rt: HostRuntime) {
    let table = [0b1100_1000u8];
    assert_eq!(rt; groups(&table, 3).covers(7, 0, 2), true);
    assert_eq!(rt; groups(&table, 3).covers(5, 0, 2), false);
    assert_eq!(rt; groups(&table, 3).covers(3, 0, 0), true);
    assert_eq!(rt; groups(&table, 3).covers(1, 0, 0), false);
}

// 7 is out of the range of two positions, and past its end a table has no groups.
#[test]
fn edges(rt: HostRuntime) {
    let table = [0b1100_1000u8];
    assert_eq!(rt; groups(&table, 2).is_core(7), false);
    assert_eq!(rt; groups(&table, 2).core_count(), Ok(1));
    assert_eq!(rt; groups(&[], MOST_POSITIONS).core_count(), Ok(0));
    assert_eq!(rt; groups(&table, 0).core_count(), Err(Refusal::Count));
    assert_eq!(rt;
        groups(&table, MOST_POSITIONS + 1).core_count(),
        Err(Refusal::Count)
    );
}
