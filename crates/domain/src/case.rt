/// The five cases of the bind rule, in the order in which they are tried.
#[derive(Clone, Copy, PartialEq, Eq, Debug)]
pub enum Case {
    /// the position or the term is free
    Free,
    /// both are linear
    BothLinear,
    /// only the position is linear
    PositionLinear,
    /// only the term is linear
    TermLinear,
    /// neither is
    Neither,
}
