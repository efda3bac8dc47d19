//! Small sheets worked out by hand.
use crate::Description;
use domain::change::Change;
use domain::limits::{MOST_POSITIONS, TABLE_BYTES};
use domain::listing::Listing;
use domain::marks::Marks;
use domain::refusal::Refusal;
use domain::term::Term;
use std::process::Abort;
use std::test::Fail;

// A bind of a position.
fn bind(position: u8, term: Term) -> Change<&'static [u16]> {
    Change::Bind { position, term }
}

// A join with a description that is handed over.
fn join(free: u16, linear: u16, groups: &[u16]) -> Change<&[u16]> {
    Change::Join(Listing {
        marks: Marks { free, linear },
        groups,
    })
}

// The groups of at most four positions, one bit for each mask, and the two masks.
fn tells(rt: &impl Abort, d: &Description, groups: u16, free: u16, linear: u16) {
    for g in 0..16u16 {
        assert_eq!(rt; d.holds(g), groups >> g & 1 == 1);
    }
    assert_eq!(rt; d.outline().marks, Marks { free, linear });
}

#[test]
fn opens(rt: HostRuntime) -> Result<(), Fail> {
    let d = Description::new(2)?;
    assert_eq!(rt; d.outline().positions, 2);
    tells(&rt, &d, 0b110, 3, 3);
    assert!(rt; Description::new(0).is_err() && Description::new(MOST_POSITIONS + 1).is_err());
    Ok(())
}

#[test]
fn binds_to_a_compound(rt: HostRuntime) -> Result<(), Fail> {
    let mut scratch = [0; TABLE_BYTES];
    let d = Description::new(3)?.changed(bind(0, Term::over(6, 0)), &mut scratch)?;
    tells(&rt, &d, 1 << 3 | 1 << 5, 6, 7);
    assert!(rt; d.share(0, 1)?);
    assert!(rt; !d.share(1, 2)?);
    assert!(rt; !d.is_free(0)? && d.is_linear(0)? && !d.is_ground(0)?);
    Ok(())
}

#[test]
fn binds_what_shares(rt: HostRuntime) -> Result<(), Fail> {
    let mut scratch = [0; TABLE_BYTES];
    let d = Description::new(4)?.changed(bind(0, Term::over(6, 0)), &mut scratch)?;
    let e = d.changed(bind(3, Term::over(3, 0)), &mut scratch)?;
    tells(&rt, &e, 1 << 11 | 1 << 13, 6, 7);
    let f = e.changed(bind(0, Term::over(8, 0)), &mut scratch)?;
    tells(&rt, &f, 1 << 11 | 1 << 13 | 1 << 15, 0, 0);
    Ok(())
}

#[test]
fn joins_and_forgets(rt: HostRuntime) -> Result<(), Fail> {
    let mut scratch = [0; TABLE_BYTES];
    let d = Description::new(3)?;
    let e = d.changed(join(6, 7, &[3, 4]), &mut scratch)?;
    tells(&rt, &e, 1 << 1 | 1 << 2 | 1 << 3 | 1 << 4, 6, 7);
    let f = e.changed(Change::Forget(2), &mut scratch)?;
    tells(&rt, &f, 1 << 1 | 1 << 2 | 1 << 4, 6, 7);
    Ok(())
}

#[test]
fn refuses(rt: HostRuntime) -> Result<(), Fail> {
    let d = Description::new(4)?;
    let mut scratch = [0; TABLE_BYTES];
    let bare = Term::position(1);
    assert_eq!(rt;
        d.changed(bind(4, bare), &mut scratch).err(),
        Some(Refusal::Position)
    );
    assert_eq!(rt;
        d.changed(bind(1, bare), &mut scratch).err(),
        Some(Refusal::Itself)
    );
    assert_eq!(rt;
        d.changed(bind(0, bare), &mut [0; TABLE_BYTES - 1]).err(),
        Some(Refusal::Room)
    );
    let falling = join(15, 15, &[2, 1]);
    assert_eq!(rt;
        d.changed(falling, &mut scratch).err(),
        Some(Refusal::Groups)
    );
    let ill = join(15, 15, &[1, 2]);
    assert_eq!(rt; d.changed(ill, &mut scratch).err(), Some(Refusal::Masks));
    assert_eq!(rt;
        d.changed(Change::Forget(16), &mut scratch).err(),
        Some(Refusal::Position)
    );
    Ok(())
}
