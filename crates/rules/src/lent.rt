//! The rules on a lent table, beside which the caller keeps the outline. The new table takes the place of the
//! old one; where a call is refused, the table stays as it was.
ghost use Rattle.std.specs.Prelude.{◌≡◌, ℕ, ◌/◌, ◌<◌, ◌↔◌, ◌++◌, drop, length, Contains, Err, IsTrue, OnOk};
ghost use Rattle.domain.specs.Changes.{Makes, change_tests, lent_change};
ghost use Rattle.domain.specs.Opening.{New, Single};
ghost use Rattle.domain.specs.Refusals.{first_of};
ghost use Rattle.domain.specs.Requests.{bytes_for, open_tests, room_tests, Gives};
ghost use Rattle.domain.specs.Tables.{TableGroup, holds_bit, told_with};
ghost use Rattle.rules.specs.Reaching.{Reach};
ghost use Rattle.rules.specs.Views.{SameBeside};

use crate::bench::Bench;
use crate::groups::{Groups, all};
use crate::rule::check::Limits;
use crate::rule::load::{put_groups, put_singles};
use domain::change::Change;
use domain::limits::{bytes_for, check_count, check_room};
use domain::marks::Marks;
use domain::outline::Outline;
use domain::refusal::Refusal;

/// Makes the table that of the new description: each position alone in its group, free and linear. All other bits
/// of the bytes that so many positions need are cleared; the bytes past these stay. Refuses a number of positions
/// that no description has, and a table that is too short.
pub fn open_table(table: &mut [u8], positions: u8) -> Result<Outline, Refusal>
    ensures gives { Gives
        (first_of (open_tests positions ++ room_tests positions (length table.old))) result
        (λ o. New positions (told_with o table.new)) }
    ensures front { OnOk result ((g : ℕ) → g / 8 < bytes_for positions
        → (IsTrue (holds_bit table.new g) ↔ Single positions g)) }
    ensures past { drop (bytes_for positions) table.new ≡ drop (bytes_for positions) table.old }
    ensures kept { (e : Refusal) → result ≡ Err e → table.new ≡ table.old }
{
    check_count(positions)?;
    check_room(positions, table.len())?;
    put_singles(&mut table[..bytes_for(positions)], positions);
    let every = all(positions);
    Ok(Outline {
        positions,
        marks: Marks {
            free: every,
            linear: every,
        },
    })
}

/// Clears the table, to its end, and puts the groups of the list into it. A group past the table's end is left
/// out.
pub fn load_table(table: &mut [u8], groups: &[u16])
    ensures { (g : ℕ) → g / 8 < length table.old
        → (IsTrue (holds_bit table.new g) ↔ Contains groups.now g) }
{
    table.fill(0);
    put_groups(table, groups);
}

/// All positions that lie in a group with a position of the mask. Refuses a number of positions that no
/// description has.
pub fn reach_table(table: &[u8], positions: u8, mask: u16) -> Result<u16, Refusal>
    ensures { Gives (first_of (open_tests positions)) result
        (λ r. Reach (TableGroup positions table.now) mask r) }
{
    check_count(positions)?;
    Ok(Groups { table, positions }.reach(mask))
}

/// Makes the table that of the description after the change, and gives its outline. The bits that are no groups,
/// of mask 0 and of masks at 2 to the power of the number of positions and above, may be any before, and stay.
/// Refuses what the change itself does, and before it a number of positions that no description has.
pub fn change_table(
    table: &mut [u8],
    outline: Outline,
    change: Change<&[u16]>,
) -> Result<Outline, Refusal>
    ensures gives { Gives (first_of (open_tests outline.positions
        ++ change_tests outline.positions (lent_change change.entry) (length table.old))) result
        (λ o. Makes (lent_change change.entry) (told_with outline table.old)
        (told_with o table.new)) }
    ensures beside { SameBeside outline.positions table.old table.new }
    ensures kept { (e : Refusal) → result ≡ Err e → table.new ≡ table.old }
{
    let limits = Limits::of(outline.positions, table.len())?;
    match change {
        Change::Bind { position, term } => {
            limits.check_bind(position, term)?;
            let mut bench = Bench { table, outline };
            Ok(bench.bound(position, term))
        }
        Change::Join(other) => {
            limits.check_join(other)?;
            let mut bench = Bench { table, outline };
            Ok(bench.joined(other))
        }
        Change::Forget(mask) => {
            limits.check_forget(mask)?;
            let mut bench = Bench { table, outline };
            Ok(bench.forgotten(mask))
        }
    }
}
