//! The rows of the table, run on both keepers.
use crate::examples::write_example;
use domain::limits::TABLE_BYTES;
use domain::listing::Listing;
use domain::marks::Marks;
use domain::refusal::Refusal;
use domain::term::Term;
use keeper::{Keeper, KeeperFault, WrittenOut};
use list_keeper::ListKeeper;
use std::process::Abort;
use std::test::Fail;
use table_keeper::TableKeeper;

// A core, as a row says that it is written out in the end, or as it is handed over.
fn listing(groups: &[u16], free: u16, linear: u16) -> Listing<&[u16]> {
    Listing {
        marks: Marks { free, linear },
        groups,
    }
}

fn bind_all<K: Keeper>(keeper: &mut K, n: u8, binds: &[(u8, Term)]) -> Result<(), KeeperFault> {
    keeper.open(n, &mut [0; TABLE_BYTES])?;
    for (x, term) in binds {
        keeper.bind(*x, *term, &mut [0; TABLE_BYTES])?;
    }
    Ok(())
}

fn is_written<K: Keeper>(rt: &impl Abort, keeper: &K, row: Listing<&[u16]>) -> Result<(), Fail> {
    let mut list = [0u16; 16];
    let wanted = WrittenOut {
        count: row.groups.len(),
        marks: row.marks,
    };
    assert_eq!(rt; write_example(keeper, &mut list)?, wanted);
    assert!(rt; list.starts_with(row.groups));
    Ok(())
}

fn shows<K: Keeper>(
    rt: &impl Abort,
    keeper: &mut K,
    n: u8,
    binds: &[(u8, Term)],
    row: Listing<&[u16]>,
) -> Result<(), Fail> {
    bind_all(keeper, n, binds)?;
    is_written(rt, keeper, row)
}

// On both keepers.
fn binds_show(
    rt: &impl Abort,
    n: u8,
    binds: &[(u8, Term)],
    row: Listing<&[u16]>,
) -> Result<(), Fail> {
    shows(rt, &mut TableKeeper::new(), n, binds, row)?;
    shows(rt, &mut ListKeeper::new(&mut [0; 16]), n, binds, row)
}

#[test]
fn one_bind(rt: HostRuntime) -> Result<(), Fail> {
    binds_show(&rt, 2, &[], listing(&[1, 2], 3, 3))?;
    binds_show(&rt, 2, &[(0, Term::position(1))], listing(&[3], 3, 3))?;
    binds_show(&rt, 3, &[(0, Term::over(6, 0))], listing(&[3, 5], 6, 7))?;
    binds_show(&rt, 2, &[(0, Term::over(2, 2))], listing(&[3], 2, 2))?;
    binds_show(&rt, 2, &[(0, Term::over(0, 0))], listing(&[2], 2, 3))
}

#[test]
fn several_binds(rt: HostRuntime) -> Result<(), Fail> {
    binds_show(
        &rt,
        2,
        &[(0, Term::position(1)), (1, Term::over(0, 0))],
        listing(&[], 0, 3),
    )?;
    binds_show(
        &rt,
        2,
        &[(0, Term::over(2, 2)), (0, Term::over(0, 0))],
        listing(&[], 0, 3),
    )?;
    binds_show(
        &rt,
        3,
        &[(0, Term::position(1)), (2, Term::over(3, 0))],
        listing(&[7], 3, 3),
    )?;
    binds_show(
        &rt,
        5,
        &[
            (0, Term::over(26, 0)),
            (2, Term::position(1)),
            (0, Term::over(6, 0)),
        ],
        listing(&[7, 15, 23, 31], 0, 0),
    )?;
    binds_show(
        &rt,
        7,
        &[
            (0, Term::over(70, 0)),
            (3, Term::over(112, 0)),
            (0, Term::position(3)),
        ],
        listing(&[27, 29, 43, 45, 73, 75, 77, 89, 105], 0, 54),
    )?;
    binds_show(
        &rt,
        4,
        &[(0, Term::over(6, 0)), (0, Term::over(9, 0))],
        listing(&[3, 5, 7, 11, 13], 0, 8),
    )
}

// Six core groups fit a list of six, and not one of five.
#[test]
fn six_core_groups(rt: HostRuntime) -> Result<(), Fail> {
    let binds = [(0, Term::over(14, 0)), (0, Term::over(16, 16))];
    let row = listing(&[19, 21, 23, 25, 27, 29], 0, 16);
    binds_show(&rt, 5, &binds, row)?;
    shows(&rt, &mut ListKeeper::new(&mut [0; 6]), 5, &binds, row)?;
    let mut five = [0; 5];
    let mut small = ListKeeper::new(&mut five);
    let refused = Err(KeeperFault {
        refusal: Refusal::Capacity,
    });
    assert_eq!(rt; bind_all(&mut small, 5, &binds), refused);
    is_written(&rt, &small, listing(&[3, 5, 9, 16], 30, 31))
}

#[test]
fn join_and_forget(rt: HostRuntime) -> Result<(), Fail> {
    let mut scratch = [0; TABLE_BYTES];
    let mut joined = TableKeeper::new();
    bind_all(&mut joined, 2, &[(0, Term::position(1))])?;
    joined.join(listing(&[1, 2], 3, 3), &mut scratch)?;
    is_written(&rt, &joined, listing(&[1, 2, 3], 3, 3))?;
    let mut forgot = TableKeeper::new();
    bind_all(&mut forgot, 2, &[(0, Term::position(1))])?;
    forgot.forget(1, &mut scratch)?;
    is_written(&rt, &forgot, listing(&[1, 2], 3, 3))
}
