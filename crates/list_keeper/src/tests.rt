//! Worked binds on lists of several lengths.
use crate::ListKeeper;
use domain::limits::TABLE_BYTES;
use domain::marks::Marks;
use domain::refusal::Refusal;
use domain::term::Term;
use keeper::{Keeper, KeeperFault, WrittenOut};
use std::test::Fail;

fn refused<T>(refusal: Refusal) -> Result<T, KeeperFault> {
    Err(KeeperFault { refusal })
}

// Opens five positions and binds 0 to f(1, 2, 3), and then to f(4, 4).
fn bind_both(keeper: &mut ListKeeper) -> Result<(), KeeperFault> {
    let mut scratch = [0; TABLE_BYTES];
    keeper.open(5, &mut scratch)?;
    keeper.bind(0, Term::over(14, 0), &mut scratch)?;
    keeper.bind(0, Term::over(16, 16), &mut scratch)
}

#[test]
fn only_the_core_is_told(rt: HostRuntime) -> Result<(), Fail> {
    let mut list = [7; 8];
    let mut keeper = ListKeeper::new(&mut list);
    bind_both(&mut keeper)?;
    let mut out = [9; 7];
    let told = keeper.write_out(&mut out)?;
    let wanted = WrittenOut {
        count: 6,
        marks: Marks {
            free: 0,
            linear: 16,
        },
    };
    assert_eq!(rt; told, wanted);
    assert!(rt; out == [19, 21, 23, 25, 27, 29, 9]);
    assert!(rt; list == [19, 21, 23, 25, 27, 29, 0, 0]);
    Ok(())
}

#[test]
fn a_list_of_six_is_enough(rt: HostRuntime) {
    let mut list = [0; 6];
    let mut keeper = ListKeeper::new(&mut list);
    assert_eq!(rt; bind_both(&mut keeper), Ok(()));
}

#[test]
fn a_list_of_five_is_not(rt: HostRuntime) {
    let mut list = [0; 5];
    let mut keeper = ListKeeper::new(&mut list);
    assert_eq!(rt; bind_both(&mut keeper), refused(Refusal::Capacity));
    assert_eq!(rt; keeper.share(0, 3), Ok(true));
    assert_eq!(rt; keeper.share(0, 4), Ok(false));
    assert_eq!(rt; keeper.is_linear(0), Ok(true));
    assert!(rt; list == [3, 5, 9, 16, 0]);
}

#[test]
fn an_empty_list_takes_nothing(rt: HostRuntime) {
    let mut keeper = ListKeeper::new(&mut []);
    assert_eq!(rt;
        keeper.open(1, &mut [0; TABLE_BYTES]),
        refused(Refusal::Capacity)
    );
    assert_eq!(rt; keeper.is_ground(0), refused(Refusal::Order));
}
