//! The subsets of a mask that are not empty, from the mask itself downwards.
ghost use Rattle.std.specs.Iterator.{item_count, YieldsFirst};
ghost use Rattle.std.specs.Prelude.{◌≡◌, ℕ, List};
ghost use Rattle.domain.specs.Masks.{Within};
ghost use Rattle.domain.specs.Subsets.{subsets_from};

use std::marker::Model;

/// A walk over the subsets of a mask that are not empty; clauses see the list of those that are left.
#[derive(Drop)]
pub struct Subsets {
    mask: u16,
    // the next one; 0, which is none of those that are walked, at the end
    next: u16,
}

impl Model for Subsets {
    ghost Value = { List ℕ };

    ghost view = { λ s. subsets_from s.mask s.next };

    ghost invariant = { λ s. Within s.next s.mask };
}

impl Subsets {
    /// All subsets of the mask.
    pub fn of(mask: u16) -> Self
        ensures { result ≡ subsets_from mask mask }
    {
        Subsets { mask, next: mask }
    }
}

impl Iterator for Subsets {
    type Item = u16;

    ghost next_gives = { YieldsFirst (λ s. s) };

    ghost remaining = { item_count (λ s. s) };

    // The largest subset below s is what s - 1 has in common with the mask.
    fn next(&mut self) -> Option<u16> {
        let subset = self.next;
        if subset == 0 {
            return None;
        }
        self.next = (subset - 1) & self.mask;
        Some(subset)
    }
}
