//! Binds, joins and forgets worked out by hand, compared by their cores.
use coverage::groups::Groups;
use description::Description;
use domain::change::Change;
use domain::limits::TABLE_BYTES;
use domain::listing::Listing;
use domain::marks::Marks;
use domain::outline::Outline;
use domain::term::Term;
use std::process::Abort;
use std::test::Fail;

// A core, as it is told or handed over.
fn listing(groups: &[u16], free: u16, linear: u16) -> Listing<&[u16]> {
    Listing {
        marks: Marks { free, linear },
        groups,
    }
}

// A bind of a position.
fn bind(position: u8, term: Term) -> Change<&'static [u16]> {
    Change::Bind { position, term }
}

// The core of a description and its marks.
fn is_told(rt: &impl Abort, d: &Description, wanted: Listing<&[u16]>) -> Result<(), Fail> {
    let mut list = [0u16; 16];
    let Outline { positions, marks } = d.outline();
    let held = Groups {
        table: d.table(),
        positions,
    };
    assert_eq!(rt; held.write_core(&mut list)?, wanted.groups.len());
    assert!(rt; list.starts_with(wanted.groups));
    assert_eq!(rt; marks, wanted.marks);
    Ok(())
}

#[test]
fn binds_of_two_positions(rt: HostRuntime) -> Result<(), Fail> {
    let mut scratch = [0; TABLE_BYTES];
    let new = Description::new(2)?;
    is_told(&rt, &new, listing(&[1, 2], 3, 3))?;
    let bound = new.changed(bind(0, Term::position(1)), &mut scratch)?;
    is_told(&rt, &bound, listing(&[3], 3, 3))?;
    let repeated = new.changed(bind(0, Term::over(2, 2)), &mut scratch)?;
    is_told(&rt, &repeated, listing(&[3], 2, 2))?;
    let constant = new.changed(bind(0, Term::over(0, 0)), &mut scratch)?;
    is_told(&rt, &constant, listing(&[2], 2, 3))?;
    let both = bound.changed(bind(1, Term::over(0, 0)), &mut scratch)?;
    is_told(&rt, &both, listing(&[], 0, 3))?;
    let joined = bound.changed(Change::Join(listing(&[1, 2], 3, 3)), &mut scratch)?;
    is_told(&rt, &joined, listing(&[1, 2, 3], 3, 3))?;
    let forgot = bound.changed(Change::Forget(1), &mut scratch)?;
    is_told(&rt, &forgot, listing(&[1, 2], 3, 3))
}

// 0 bound to f(1, 2, 3), then to f(4, 4): the whole group 31 is no core group.
#[test]
fn binds_of_five_positions(rt: HostRuntime) -> Result<(), Fail> {
    let mut scratch = [0; TABLE_BYTES];
    let first = Description::new(5)?.changed(bind(0, Term::over(14, 0)), &mut scratch)?;
    let second = first.changed(bind(0, Term::over(16, 16)), &mut scratch)?;
    assert!(rt; second.holds(31));
    is_told(&rt, &second, listing(&[19, 21, 23, 25, 27, 29], 0, 16))
}

// 0 bound to f(1, 2, 6), 3 to f(4, 6, 5), then 0 to position 3.
#[test]
fn binds_of_seven_positions(rt: HostRuntime) -> Result<(), Fail> {
    let mut scratch = [0; TABLE_BYTES];
    let first = Description::new(7)?.changed(bind(0, Term::over(70, 0)), &mut scratch)?;
    let second = first.changed(bind(3, Term::over(112, 0)), &mut scratch)?;
    let third = second.changed(bind(0, Term::position(3)), &mut scratch)?;
    assert!(rt; third.holds(91) && third.holds(93) && third.holds(107) && third.holds(109));
    is_told(
        &rt,
        &third,
        listing(&[27, 29, 43, 45, 73, 75, 77, 89, 105], 0, 54),
    )
}

// 0 bound to f(1, 2), then to f(0, 3): a term that holds the position itself.
#[test]
fn a_term_that_holds_the_position(rt: HostRuntime) -> Result<(), Fail> {
    let mut scratch = [0; TABLE_BYTES];
    let first = Description::new(4)?.changed(bind(0, Term::over(6, 0)), &mut scratch)?;
    let second = first.changed(bind(0, Term::over(9, 0)), &mut scratch)?;
    assert!(rt; second.holds(15));
    is_told(&rt, &second, listing(&[3, 5, 7, 11, 13], 0, 8))
}
