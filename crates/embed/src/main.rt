//! The calls that a library user makes: open, two binds, the questions, a refusal and a write-out, on both
//! keepers.
#![tactic(auto)]

use domain::limits::TABLE_BYTES;
use domain::refusal::Refusal;
use domain::term::Term;
use keeper::{Keeper, KeeperFault};
use list_keeper::ListKeeper;
use std::io;
use table_keeper::TableKeeper;

fn main(rt: HostRuntime) -> anyhow::Result<()> {
    println!(rt; "table keeper")?;
    walk(&rt, &mut TableKeeper::new())?;
    println!(rt; "list keeper with room for three groups")?;
    let mut list = [0; 3];
    walk(&rt, &mut ListKeeper::new(&mut list))?;
    Ok(())
}

// The order is position 0, its buyer 1 and its seller 2. The order is bound to a pair of both, then to a pair that
// holds the buyer twice.
fn walk<K: Keeper>(rt: &HostRuntime, keeper: &mut K) -> io::Result<()> {
    let mut scratch = [0; TABLE_BYTES];
    accepted(rt, "open 3", keeper.open(3, &mut scratch))?;
    accepted(
        rt,
        "bind 0 to f(1, 2)",
        keeper.bind(0, Term::over(0b110, 0), &mut scratch),
    )?;
    ask(rt, keeper)?;
    accepted(
        rt,
        "bind 1 to a constant",
        keeper.bind(1, Term::over(0, 0), &mut scratch),
    )?;
    ask(rt, keeper)?;
    accepted(
        rt,
        "bind 2 to itself",
        keeper.bind(2, Term::position(2), &mut scratch),
    )?;
    write_out(rt, keeper)
}

// The questions.
fn ask<K: Keeper>(rt: &HostRuntime, keeper: &K) -> io::Result<()> {
    answered(rt, "  do 0 and 1 share?", keeper.share(0, 1))?;
    answered(rt, "  do 1 and 2 share?", keeper.share(1, 2))?;
    answered(rt, "  is 0 free?", keeper.is_free(0))?;
    answered(rt, "  is 0 linear?", keeper.is_linear(0))?;
    answered(rt, "  is 1 ground?", keeper.is_ground(1))
}

// The core, and the marks beside it.
fn write_out<K: Keeper>(rt: &HostRuntime, keeper: &K) -> io::Result<()> {
    let mut groups = [0; 4];
    match keeper.write_out(&mut groups) {
        Ok(written) => {
            println!(rt;
                "core of {} group(s), free {}, linear {}",
                written.count, written.marks.free, written.marks.linear
            )?;
            for group in groups.iter().take(written.count) {
                println!(rt; "  group {group}")?;
            }
            Ok(())
        }
        Err(fault) => refused(rt, "write out", fault.refusal),
    }
}

fn accepted(rt: &HostRuntime, call: &str, done: Result<(), KeeperFault>) -> io::Result<()> {
    match done {
        Ok(()) => println!(rt; "{call}"),
        Err(fault) => refused(rt, call, fault.refusal),
    }
}

fn answered(rt: &HostRuntime, question: &str, answer: Result<bool, KeeperFault>) -> io::Result<()> {
    match answer {
        Ok(true) => println!(rt; "{question} yes"),
        Ok(false) => println!(rt; "{question} no"),
        Err(fault) => refused(rt, question, fault.refusal),
    }
}

fn refused(rt: &HostRuntime, call: &str, refusal: Refusal) -> io::Result<()> {
    let number = refusal.number();
    println!(rt; "{call}: refused {number}")
}
