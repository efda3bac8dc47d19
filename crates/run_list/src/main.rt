//! Runs a sheet from standard input on the list keeper.
#![tactic(auto)]

use console::run_input;
use list_keeper::ListKeeper;

#[cfg(test)]
mod tests;

// How many core groups the program has room for.
const CAPACITY: usize = 64;

fn main(rt: HostRuntime) -> anyhow::Result<()> {
    let mut list = [0; CAPACITY];
    let mut keeper = ListKeeper::new(&mut list);
    run_input(&rt, &mut keeper)
}
