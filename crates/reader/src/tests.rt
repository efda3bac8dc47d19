//! Small sheets, read.
ghost use Rattle.std.specs.Prelude.{◌≤◌};

use crate::step::StepRecord;
use domain::change::Change;
use domain::listing::Listing;
use domain::marks::Marks;
use domain::refusal::Refusal;
use domain::term::Term;
use keeper::Question;
use sheet::{ReaderFault, Span, Step};
use std::process::Abort;

// The first step of a sheet.
fn first(sheet: &[u8]) -> Result<Step, ReaderFault> {
    StepRecord::read(sheet, 0)?.step()
}

fn changed(rt: &impl Abort, sheet: &[u8], change: Change<Span>) {
    assert_eq!(rt; first(sheet), Ok(Step::Change(change)));
}

fn bound(rt: &impl Abort, sheet: &[u8], bare: bool, held: u16, repeated: u16) {
    let term = Term {
        bare,
        held,
        repeated,
    };
    changed(rt, sheet, Change::Bind { position: 0, term });
}

fn refused(rt: &impl Abort, sheet: &[u8], refusal: Refusal, place: usize) {
    assert_eq!(rt; first(sheet), Err(ReaderFault { refusal, place }));
}

// A bind to a constant inside so many compounds, written by places: each length counts what is further in.
fn tower(depth: usize) -> [u8; 128]
    requires { depth ≤ 17 }
{
    let mut sheet = [0; 128];
    sheet[0] = (6 * depth + 7) as u8;
    sheet[2] = 2;
    for i in 0..depth {
        sheet[5 + 6 * i] = (6 * (depth - i) + 2) as u8;
        sheet[7 + 6 * i] = 19;
    }
    sheet[5 + 6 * depth] = 2;
    sheet[7 + 6 * depth] = 18;
    sheet
}

#[test]
fn terms(rt: HostRuntime) {
    // position 1
    bound(&rt, b"\x06\0\x02\0\0\x01\0\x11\0\x01", true, 2, 0);
    // f(1, 1)
    bound(
        &rt,
        b"\x11\0\x02\0\0\x0c\0\x13\0\0\0\x01\0\x11\0\x01\x01\0\x11\0\x01",
        false,
        2,
        2,
    );
    // f(1, g(2), 2)
    bound(
        &rt,
        b"\x1c\0\x02\0\0\x17\0\x13\0\0\0\x01\0\x11\0\x01\x07\0\x13\0\0\0\x01\0\x11\0\x02\x01\0\x11\0\x02",
        false,
        6,
        4,
    );
}

#[test]
fn nests_sixteen_deep(rt: HostRuntime) {
    bound(&rt, &tower(16), false, 0, 0);
    refused(&rt, &tower(17), Refusal::Depth, 101);
}

fn joined(rt: &impl Abort, sheet: &[u8], free: u16, linear: u16, start: usize, count: usize) {
    let marks = Marks { free, linear };
    let groups = Span { start, count };
    changed(rt, sheet, Change::Join(Listing { marks, groups }));
}

#[test]
fn joins(rt: HostRuntime) {
    joined(&rt, b"\x04\0\x03\0\x01\x02\x03\x04", 0x0201, 0x0403, 8, 0);
    joined(&rt, b"\x08\0\x03\0\x05\0\x07\0\x01\0\x06\x08", 5, 7, 8, 2);
}

#[test]
fn forgets(rt: HostRuntime) {
    changed(&rt, b"\x02\0\x04\0\x03\x08", Change::Forget(0x0803));
}

fn asked(rt: &impl Abort, sheet: &[u8], question: Question) {
    assert_eq!(rt; first(sheet), Ok(Step::Ask(question)));
}

#[test]
fn questions(rt: HostRuntime) {
    asked(&rt, b"\x02\0\x05\0g\x0b", Question::Ground(11));
    asked(&rt, b"\x02\0\x05\0f\x01", Question::Free(1));
    asked(&rt, b"\x02\0\x05\0l\x02", Question::Linear(2));
    asked(&rt, b"\x03\0\x05\0p\0\x01", Question::Pair(0, 1));
}

#[test]
fn refusals(rt: HostRuntime) {
    refused(&rt, b"\x01\0\x01", Refusal::Truncated, 0);
    refused(
        &rt,
        b"\x06\0\x02\0\0\x02\0\x11\0\x01",
        Refusal::Truncated,
        5,
    );
    refused(&rt, b"\0\0\x07\0", Refusal::Kind, 0);
    refused(&rt, b"\x06\0\x02\0\0\x01\0\x06\0\x01", Refusal::Kind, 5);
    refused(&rt, b"\x01\0\x06\0\0", Refusal::Length, 0);
    refused(&rt, b"\x07\0\x02\0\0\x01\0\x11\0\x01\0", Refusal::Length, 0);
    refused(&rt, b"\x02\0\x03\0\0\0", Refusal::Length, 0);
    refused(&rt, b"\x05\0\x03\0\0\0\0\0\0", Refusal::Length, 0);
    refused(&rt, b"\x03\0\x04\0\0\0\0", Refusal::Length, 0);
    refused(&rt, b"\x03\0\x05\0g\0\0", Refusal::Length, 0);
    refused(&rt, b"\x06\0\x02\0\0\x01\0\x11\0\x0c", Refusal::Position, 5);
    refused(&rt, b"\x02\0\x05\0g\x0c", Refusal::Position, 0);
    refused(&rt, b"\x02\0\x05\0b\0", Refusal::Letter, 0);
}
