//! Steps worked out by hand, one after the other on one table.
use crate::lent::{change_table, load_table, open_table};
use domain::change::Change;
use domain::limits::TABLE_BYTES;
use domain::listing::Listing;
use domain::marks::Marks;
use domain::outline::Outline;
use domain::term::Term;
use std::test::Fail;

#[test]
fn works_in_place(rt: HostRuntime) -> Result<(), Fail> {
    let mut table = [255; TABLE_BYTES];
    let alone: &[u16] = &[1, 2, 4];
    load_table(&mut table, alone);
    let all = Marks { free: 7, linear: 7 };
    let new = Outline {
        positions: 3,
        marks: all,
    };
    let bind = Change::Bind {
        position: 0,
        term: Term::over(6, 0),
    };
    let bound = change_table(&mut table, new, bind)?;
    assert_eq!(rt; table[0], 1 << 3 | 1 << 5);
    assert_eq!(rt; bound.marks, Marks { free: 6, linear: 7 });
    let join = Change::Join(Listing {
        marks: Marks { free: 2, linear: 7 },
        groups: alone,
    });
    let joined = change_table(&mut table, bound, join)?;
    assert_eq!(rt; table[0], 1 << 1 | 1 << 2 | 1 << 3 | 1 << 4 | 1 << 5);
    assert_eq!(rt; joined.marks, Marks { free: 2, linear: 7 });
    let forgotten = change_table(&mut table, joined, Change::Forget(1))?;
    assert_eq!(rt; table[0], 1 << 1 | 1 << 2 | 1 << 4);
    assert_eq!(rt; forgotten.marks, Marks { free: 3, linear: 7 });
    Ok(())
}

#[test]
fn opens_in_place(rt: HostRuntime) -> Result<(), Fail> {
    let mut table = [255; TABLE_BYTES];
    let outline = open_table(&mut table, 3)?;
    assert_eq!(rt; table[0], 1 << 1 | 1 << 2 | 1 << 4);
    assert_eq!(rt; outline.positions, 3);
    assert_eq!(rt; outline.marks, Marks { free: 7, linear: 7 });
    Ok(())
}
