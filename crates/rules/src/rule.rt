//! The rules: what each refuses, and what it makes of the table and of the marks.
pub(crate) mod bound;
pub(crate) mod check;
pub(crate) mod forgotten;
pub(crate) mod load;
mod made;
mod sides;
