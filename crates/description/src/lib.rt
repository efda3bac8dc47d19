//! A description: its groups as a bit table, and its outline beside it.
#![tactic(auto)]

ghost use Rattle.domain.specs.Tables.{told_with};
ghost use Rattle.domain.specs.Told.{Lawful};

mod ask;
mod change;
mod parts;
#[cfg(test)]
mod tests;

use domain::limits::TABLE_BYTES;
use domain::outline::Outline;

/// A description. One that breaks a rule of descriptions cannot be made.
#[derive(Drop)]
pub struct Description {
    outline: Outline,
    table: [u8; TABLE_BYTES],
    ghost lawful: { Lawful (told_with outline table) },
}
