//! The limits of a description, and the tests against them.
ghost use Rattle.std.specs.Prelude.{◌≡◌, ◌<◌, ◌≤◌, ◌*◌, ◌+◌, ◌^◌};
ghost use Rattle.domain.specs.Refusals.{first_of};
ghost use Rattle.domain.specs.Requests.{open_tests, ask_tests, room_tests, bytes_for, Gives};

use crate::refusal::Refusal;

/// No description has more positions.
pub const MOST_POSITIONS: u8 = 12;

/// No description has more groups: every mask of the most positions but the empty one.
pub const MOST_GROUPS: usize = 4_095;

/// The bytes that have a bit for every mask of the most positions.
pub const TABLE_BYTES: usize = 512;

/// The bytes that the work on so many positions needs: a bit for every mask. Every mask but the empty one can be
/// a group.
pub fn bytes_for(_positions: u8) -> usize
    ensures bytes { result ≡ bytes_for _positions }
    ensures most_positions { MOST_POSITIONS ≡ 12 }
    ensures bit_for_each_mask { 8 * TABLE_BYTES ≡ 2 ^ MOST_POSITIONS }
    ensures group_for_each_mask { MOST_GROUPS + 1 ≡ 2 ^ MOST_POSITIONS }
{
    TABLE_BYTES
}

/// Refuses no positions, and more than a description can have.
pub fn check_count(positions: u8) -> Result<(), Refusal>
    ensures { Gives (first_of (open_tests positions)) result
        (λ u. (0 < positions) × (positions ≤ MOST_POSITIONS)) }
{
    if positions == 0 || positions > MOST_POSITIONS {
        return Err(Refusal::Count);
    }
    Ok(())
}

/// Refuses a position that a description of so many does not have.
pub fn check_position(positions: u8, p: u8) -> Result<(), Refusal>
    ensures { Gives (first_of (ask_tests positions p)) result (λ u. p < positions) }
{
    if p >= positions {
        return Err(Refusal::Position);
    }
    Ok(())
}

/// Refuses fewer bytes than the work on so many positions needs.
pub fn check_room(positions: u8, bytes: usize) -> Result<(), Refusal>
    ensures { Gives (first_of (room_tests positions bytes)) result
        (λ u. bytes_for positions ≤ bytes) }
{
    if bytes < bytes_for(positions) {
        return Err(Refusal::Room);
    }
    Ok(())
}
