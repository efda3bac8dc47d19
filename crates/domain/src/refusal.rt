//! The fixed table of refusals. Every call and every sheet ends in its answer or in one of these.
ghost use Rattle.std.specs.Prelude.{◌≡◌, Some};
ghost use Rattle.domain.specs.Refusals.{number_of, layer_of, layer_name};

use std::fmt;

/// Why a call or a sheet is refused.
#[derive(Clone, Copy, PartialEq, Eq, Debug)]
pub enum Refusal {
    /// a record runs past the sheet or the record around it, or no end record comes
    Truncated,
    /// the kind is not one for that place
    Kind,
    /// the payload does not fit its kind, or the sheet is too long
    Length,
    /// anything but an open before the open, a second open, anything after the end
    Order,
    /// the number of positions is 0 or above 12
    Count,
    /// a position is out of range
    Position,
    /// a position is bound to itself, bare
    Itself,
    /// a compound nests too deep
    Depth,
    /// a group is empty, out of order or out of range
    Groups,
    /// the masks are none that a description or a term can have
    Masks,
    /// no question has this letter
    Letter,
    /// the core has more groups than the keeper has room for
    Capacity,
    /// a lent list is too short
    Room,
}

/// Who refuses: the reader of the sheet, the runner of its steps, or the keeper.
#[derive(Clone, Copy, PartialEq, Eq, Debug)]
pub enum Layer {
    /// the reader of the sheet
    Reader,
    /// the runner of its steps
    Runner,
    /// the keeper
    Keeper,
}

impl Refusal {
    /// The refusal's number in the table.
    pub fn number(self) -> u8
        ensures { result ≡ number_of self }
    {
        match self {
            Refusal::Truncated => 1,
            Refusal::Kind => 2,
            Refusal::Length => 3,
            Refusal::Order => 4,
            Refusal::Count => 5,
            Refusal::Position => 6,
            Refusal::Itself => 7,
            Refusal::Depth => 8,
            Refusal::Groups => 9,
            Refusal::Masks => 10,
            Refusal::Letter => 11,
            Refusal::Capacity => 12,
            Refusal::Room => 13,
        }
    }

    /// The layer that alone gives this refusal, where there is one.
    pub fn layer(self) -> Option<Layer>
        ensures { result ≡ layer_of self }
    {
        match self {
            Refusal::Truncated
            | Refusal::Kind
            | Refusal::Length
            | Refusal::Depth
            | Refusal::Letter => { Some(Layer::Reader) }
            Refusal::Count
            | Refusal::Itself
            | Refusal::Groups
            | Refusal::Masks
            | Refusal::Capacity => { Some(Layer::Keeper) }
            Refusal::Order | Refusal::Position | Refusal::Room => None,
        }
    }
}

/// The name that a line prints.
impl fmt::Display for Layer {
    ghost output = { λ layer. Some (layer_name layer) };

    fn fmt<W: fmt::Write>(&self, f: &mut fmt::Formatter<W>) -> fmt::Result {
        f.write_str(match self {
            Layer::Reader => "reader",
            Layer::Runner => "runner",
            Layer::Keeper => "keeper",
        })
    }
}
