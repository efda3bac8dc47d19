//! Keys: by what an entry of a roll is found, and by what a roll is put in order.
ghost use Rattle.std.specs.Prelude.{◌≡◌, ℕ, ◌↔◌, IsTrue};
ghost use Rattle.std.proofs.Common.{rules};

/// An entry with a key. Keys can be told equal; an order is asked only where one is needed.
pub trait Keyed {
    type Key: Copy;

    // the entry's key
    ghost key: { Self → Self.Key };

    /// The entry's key.
    fn key(&self) -> Self::Key
        ensures { result ≡ key self.now };

    /// Whether this is the entry's key.
    fn has_key(&self, wanted: &Self::Key) -> bool
        ensures { IsTrue result ↔ (key self.now ≡ wanted.now) };
}

/// A key that stands for a number, and so has an order.
pub trait Ranked {
    // the number
    ghost rank: { Self → ℕ };

    /// The number that the key stands for.
    fn rank(&self) -> u64
        ensures { result ≡ rank self.now };

    // two keys do not stand for one number
    ghost apart: { (x y : Self) → rank x ≡ rank y → x ≡ y };
}

impl Ranked for u16 {
    ghost rank = { λ x. x };

    ghost apart = { Prim.search rules };

    fn rank(&self) -> u64 {
        u64::from(*self)
    }
}

/// A bare number is its own key.
impl Keyed for u16 {
    type Key = u16;

    ghost key = { λ x. x };

    fn key(&self) -> u16 {
        *self
    }

    fn has_key(&self, wanted: &u16) -> bool {
        *self == *wanted
    }
}
