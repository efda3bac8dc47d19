//! Whole sheets, and what is printed of them.
use console::{run_between, run_sheet};
use domain::limits::TABLE_BYTES;
use domain::listing::Listing;
use domain::marks::Marks;
use domain::refusal::Refusal;
use domain::term::Term;
use keeper::{Keeper, KeeperFault};
use sheet::LONGEST_SHEET;
use std::alloc::Global;
use std::process::Abort;
use std::test::Fail;
use table_keeper::TableKeeper;

fn prints(rt: &impl Abort, heap: Global, sheet: &[u8], text: &str, what: &str) -> Result<(), Fail> {
    let mut keeper = TableKeeper::new();
    let printed = run_sheet(heap, &mut keeper, sheet)?;
    assert!(rt; printed.as_str() == text, "{what}");
    Ok(())
}

// What is read of a reader is run, and its lines go to a writer: a sheet that is refused is answered, too.
fn writes(rt: &impl Abort, heap: Global, sheet: &[u8], text: &str) -> Result<(), Fail> {
    let mut out = Vec::new(heap);
    let Ok(()) = run_between(heap, &mut TableKeeper::new(), sheet, &mut out) else {
        return Err(Fail::new("every sheet is answered"));
    };
    assert!(rt; out.as_slice() == text.as_bytes(), "{text}");
    Ok(())
}

#[test]
fn from_a_reader_to_a_writer(rt: HostRuntime) -> Result<(), Fail> {
    let heap = rt.alloc();
    writes(&rt, heap, b"", "refused 1 at 0 step 0 reader\n")?;
    writes(&rt, heap, &[0; 100], "refused 2 at 0 step 0 reader\n")?;
    writes(
        &rt,
        heap,
        &[0; LONGEST_SHEET],
        "refused 2 at 0 step 0 reader\n",
    )?;
    writes(
        &rt,
        heap,
        &[0; LONGEST_SHEET + 1],
        "refused 3 at 0 step 0 reader\n",
    )?;
    writes(
        &rt,
        heap,
        b"\x01\x00\x01\x00\x02\x02\x00\x05\x00\x67\x01\x00\x00\x06\x00",
        "0 open yes\n5 ask no\n11 end yes\n",
    )
}

// What each sheet shows, its bytes, and what is printed of it.
fn all_print(rt: &impl Abort, heap: Global, sheets: &[(&str, &[u8], &str)]) -> Result<(), Fail> {
    for sheet in sheets {
        prints(rt, heap, sheet.1, sheet.2, sheet.0)?;
    }
    Ok(())
}

#[test]
fn a_sheet_that_cannot_be_read(rt: HostRuntime) -> Result<(), Fail> {
    let sheets: [(&str, &[u8], &str); 8] = [
        ("no bytes at all", b"", "refused 1 at 0 step 0 reader\n"),
        (
            "three bytes are no record",
            b"\x01\x00\x01",
            "refused 1 at 0 step 0 reader\n",
        ),
        (
            "no end comes",
            b"\x01\x00\x01\x00\x02",
            "0 open yes\nrefused 1 at 5 step 1 reader\n",
        ),
        (
            "a term that runs past its bind",
            b"\x01\x00\x01\x00\x02\x06\x00\x02\x00\x00\x02\x00\x11\x00\x01\x00\x00\x06\x00",
            "0 open yes\nrefused 1 at 10 step 1 reader\n",
        ),
        (
            "a kind that is none",
            b"\x04\x00\x07\x00\x00\x00\x00\x00",
            "refused 2 at 0 step 0 reader\n",
        ),
        (
            "a step where a term belongs",
            b"\x01\x00\x01\x00\x02\x05\x00\x02\x00\x00\x00\x00\x06\x00\x00\x00\x06\x00",
            "0 open yes\nrefused 2 at 10 step 1 reader\n",
        ),
        (
            "an open of two bytes",
            b"\x02\x00\x01\x00\x02\x02\x00\x00\x06\x00",
            "refused 3 at 0 step 0 reader\n",
        ),
        (
            "bytes after the term",
            b"\x01\x00\x01\x00\x02\x07\x00\x02\x00\x00\x01\x00\x11\x00\x01\x00\x00\x00\x06\x00",
            "0 open yes\nrefused 3 at 5 step 1 reader\n",
        ),
    ];
    all_print(&rt, rt.alloc(), &sheets)
}

#[test]
fn a_step_out_of_turn(rt: HostRuntime) -> Result<(), Fail> {
    let sheets: [(&str, &[u8], &str); 3] = [
        (
            "a bind before the open",
            b"\x06\x00\x02\x00\x00\x01\x00\x11\x00\x01",
            "refused 4 at 0 step 0 runner\n",
        ),
        (
            "a second open",
            b"\x01\x00\x01\x00\x02\x01\x00\x01\x00\x02\x00\x00\x06\x00",
            "0 open yes\nrefused 4 at 5 step 1 runner\n",
        ),
        (
            "a byte after the end",
            b"\x01\x00\x01\x00\x02\x00\x00\x06\x00\x00",
            "0 open yes\n5 end yes\nrefused 4 at 9 step 2 runner\n",
        ),
    ];
    all_print(&rt, rt.alloc(), &sheets)
}

#[test]
fn numbers_out_of_range(rt: HostRuntime) -> Result<(), Fail> {
    let sheets: [(&str, &[u8], &str); 6] = [
        (
            "no positions",
            b"\x01\x00\x01\x00\x00\x00\x00\x06\x00",
            "refused 5 at 0 step 0 keeper\n",
        ),
        (
            "too many positions",
            b"\x01\x00\x01\x00\x0d\x00\x00\x06\x00",
            "refused 5 at 0 step 0 keeper\n",
        ),
        (
            "a position that no sheet has",
            b"\x01\x00\x01\x00\x02\x06\x00\x02\x00\x0c\x01\x00\x11\x00\x01\x00\x00\x06\x00",
            "0 open yes\nrefused 6 at 5 step 1 reader\n",
        ),
        (
            "a position that this record has not",
            b"\x01\x00\x01\x00\x02\x06\x00\x02\x00\x00\x01\x00\x11\x00\x02\x00\x00\x06\x00",
            "0 open yes\nrefused 6 at 5 step 1 keeper\n",
        ),
        (
            "a question of such a position",
            b"\x01\x00\x01\x00\x02\x02\x00\x05\x00\x67\x02\x00\x00\x06\x00",
            "0 open yes\nrefused 6 at 5 step 1 keeper\n",
        ),
        (
            "a position bound to itself",
            b"\x01\x00\x01\x00\x02\x06\x00\x02\x00\x00\x01\x00\x11\x00\x00\x00\x00\x06\x00",
            "0 open yes\nrefused 7 at 5 step 1 keeper\n",
        ),
    ];
    all_print(&rt, rt.alloc(), &sheets)
}

#[test]
fn joins_of_no_description(rt: HostRuntime) -> Result<(), Fail> {
    let sheets: [(&str, &[u8], &str); 2] = [
        (
            "groups that do not ascend",
            b"\x01\x00\x01\x00\x02\x08\x00\x03\x00\x03\x00\x03\x00\x02\x00\x01\x00\x00\x00\x06\x00",
            "0 open yes\nrefused 9 at 5 step 1 keeper\n",
        ),
        (
            "a free position that is not linear",
            b"\x01\x00\x01\x00\x02\x08\x00\x03\x00\x03\x00\x01\x00\x01\x00\x02\x00\x00\x00\x06\x00",
            "0 open yes\nrefused 10 at 5 step 1 keeper\n",
        ),
    ];
    all_print(&rt, rt.alloc(), &sheets)
}

#[test]
fn depths_and_letters(rt: HostRuntime) -> Result<(), Fail> {
    let sheets: [(&str, &[u8], &str); 5] = [
        (
            "sixteen deep",
            b"\x01\x00\x01\x00\x02\x67\x00\x02\x00\x00\x62\x00\x13\x00\x00\x00\x5c\x00\x13\x00\x00\x00\x56\x00\x13\x00\x00\x00\x50\x00\x13\x00\x00\x00\x4a\x00\x13\x00\x00\x00\x44\x00\x13\x00\x00\x00\x3e\x00\x13\x00\x00\x00\x38\x00\x13\x00\x00\x00\x32\x00\x13\x00\x00\x00\x2c\x00\x13\x00\x00\x00\x26\x00\x13\x00\x00\x00\x20\x00\x13\x00\x00\x00\x1a\x00\x13\x00\x00\x00\x14\x00\x13\x00\x00\x00\x0e\x00\x13\x00\x00\x00\x08\x00\x13\x00\x00\x00\x02\x00\x12\x00\x00\x00\x00\x00\x06\x00",
            "0 open yes\n5 bind yes\n112 end yes\n",
        ),
        (
            "seventeen deep",
            b"\x01\x00\x01\x00\x02\x6d\x00\x02\x00\x00\x68\x00\x13\x00\x00\x00\x62\x00\x13\x00\x00\x00\x5c\x00\x13\x00\x00\x00\x56\x00\x13\x00\x00\x00\x50\x00\x13\x00\x00\x00\x4a\x00\x13\x00\x00\x00\x44\x00\x13\x00\x00\x00\x3e\x00\x13\x00\x00\x00\x38\x00\x13\x00\x00\x00\x32\x00\x13\x00\x00\x00\x2c\x00\x13\x00\x00\x00\x26\x00\x13\x00\x00\x00\x20\x00\x13\x00\x00\x00\x1a\x00\x13\x00\x00\x00\x14\x00\x13\x00\x00\x00\x0e\x00\x13\x00\x00\x00\x08\x00\x13\x00\x00\x00\x02\x00\x12\x00\x00\x00\x00\x00\x06\x00",
            "0 open yes\nrefused 8 at 106 step 1 reader\n",
        ),
        (
            "an unknown letter",
            b"\x01\x00\x01\x00\x02\x02\x00\x05\x00\x78\x00\x00\x00\x06\x00",
            "0 open yes\nrefused 11 at 5 step 1 reader\n",
        ),
        (
            "a letter that wants two positions",
            b"\x01\x00\x01\x00\x02\x02\x00\x05\x00\x70\x00\x00\x00\x06\x00",
            "0 open yes\nrefused 3 at 5 step 1 reader\n",
        ),
        (
            "a letter that wants one",
            b"\x01\x00\x01\x00\x02\x03\x00\x05\x00\x67\x00\x01\x00\x00\x06\x00",
            "0 open yes\nrefused 3 at 5 step 1 reader\n",
        ),
    ];
    all_print(&rt, rt.alloc(), &sheets)
}

#[test]
fn worked_binds(rt: HostRuntime) -> Result<(), Fail> {
    let sheets: [(&str, &[u8], &str); 4] = [
        (
            "0 bound to f(1, 2): groups 3 and 5, free 6, linear 7",
            b"\x01\x00\x01\x00\x03\x11\x00\x02\x00\x00\x0c\x00\x13\x00\x00\x00\x01\x00\x11\x00\x01\x01\x00\x11\x00\x02\x03\x00\x05\x00\x70\x00\x01\x03\x00\x05\x00\x70\x00\x02\x03\x00\x05\x00\x70\x01\x02\x02\x00\x05\x00\x66\x00\x02\x00\x05\x00\x66\x01\x02\x00\x05\x00\x6c\x00\x00\x00\x06\x00",
            "0 open yes\n5 bind yes\n26 ask yes\n33 ask yes\n40 ask no\n47 ask no\n53 ask yes\n59 ask yes\n65 end yes\n",
        ),
        (
            "0 bound to f(1, 1): group 3, free 2, linear 2",
            b"\x01\x00\x01\x00\x02\x11\x00\x02\x00\x00\x0c\x00\x13\x00\x00\x00\x01\x00\x11\x00\x01\x01\x00\x11\x00\x01\x03\x00\x05\x00\x70\x00\x01\x02\x00\x05\x00\x66\x00\x02\x00\x05\x00\x66\x01\x02\x00\x05\x00\x6c\x00\x02\x00\x05\x00\x6c\x01\x00\x00\x06\x00",
            "0 open yes\n5 bind yes\n26 ask yes\n33 ask no\n39 ask yes\n45 ask no\n51 ask yes\n57 end yes\n",
        ),
        (
            "and then to a constant: both ground, so both linear again",
            b"\x01\x00\x01\x00\x02\x11\x00\x02\x00\x00\x0c\x00\x13\x00\x00\x00\x01\x00\x11\x00\x01\x01\x00\x11\x00\x01\x07\x00\x02\x00\x00\x02\x00\x12\x00\x00\x00\x02\x00\x05\x00\x67\x00\x02\x00\x05\x00\x67\x01\x02\x00\x05\x00\x6c\x00\x02\x00\x05\x00\x6c\x01\x00\x00\x06\x00",
            "0 open yes\n5 bind yes\n26 bind yes\n37 ask yes\n43 ask yes\n49 ask yes\n55 ask yes\n61 end yes\n",
        ),
        (
            "after 0 is bound to 1 the term f(0, 1) is not linear",
            b"\x01\x00\x01\x00\x03\x06\x00\x02\x00\x00\x01\x00\x11\x00\x01\x11\x00\x02\x00\x02\x0c\x00\x13\x00\x00\x00\x01\x00\x11\x00\x00\x01\x00\x11\x00\x01\x02\x00\x05\x00\x6c\x02\x02\x00\x05\x00\x66\x00\x00\x00\x06\x00",
            "0 open yes\n5 bind yes\n15 bind yes\n36 ask no\n42 ask yes\n48 end yes\n",
        ),
    ];
    all_print(&rt, rt.alloc(), &sheets)
}

// The longest sheet is read, and one byte more is refused.
#[test]
fn long_sheets(rt: HostRuntime) -> Result<(), Fail> {
    let heap = rt.alloc();
    let mut bytes = vec![in heap; 0u8; LONGEST_SHEET]?;
    prints(
        &rt,
        heap,
        bytes.as_slice(),
        "refused 2 at 0 step 0 reader\n",
        "65,535 bytes",
    )?;
    bytes.push(0)?;
    prints(
        &rt,
        heap,
        bytes.as_slice(),
        "refused 3 at 0 step 0 reader\n",
        "65,536 bytes",
    )
}

// Arguments that no sheet can give a keeper.
#[test]
fn calls_that_are_refused(rt: HostRuntime) -> Result<(), Fail> {
    let mut scratch = [0u8; TABLE_BYTES];
    let mut keeper = TableKeeper::new();
    let term = Term {
        bare: true,
        held: 3,
        repeated: 0,
    };
    assert!(rt; is_refused(keeper.bind(0, term, &mut scratch), Refusal::Order));
    keeper.open(2, &mut scratch)?;
    assert!(rt; is_refused(keeper.open(2, &mut scratch), Refusal::Order));
    assert!(rt; is_refused(keeper.bind(0, term, &mut scratch), Refusal::Masks));
    assert!(rt;
        is_refused(
            keeper.join(
                Listing {
                    marks: Marks {
                        free: 3,
                        linear: 3,
                    },
                    groups: &[2, 1],
                },
                &mut scratch,
            ),
            Refusal::Groups
        )
    );
    assert!(rt;
        is_refused(
            keeper.join(
                Listing {
                    marks: Marks {
                        free: 3,
                        linear: 1,
                    },
                    groups: &[1, 2],
                },
                &mut scratch,
            ),
            Refusal::Masks
        )
    );
    assert!(rt; is_refused(keeper.forget(4, &mut scratch), Refusal::Position));
    Ok(())
}

fn is_refused(done: Result<(), KeeperFault>, refusal: Refusal) -> bool {
    done == Err(refusal.into())
}
