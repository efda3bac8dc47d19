//! Runs a sheet from standard input on the table keeper.
#![tactic(auto)]

use console::run_input;
use table_keeper::TableKeeper;

#[cfg(test)]
mod both;
#[cfg(test)]
mod tests;
#[cfg(test)]
mod work_lists;

fn main(rt: HostRuntime) -> anyhow::Result<()> {
    let mut keeper = TableKeeper::new();
    run_input(&rt, &mut keeper)
}
