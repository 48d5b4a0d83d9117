//! What a record can lack.

/// What a record lacks of what is taken of it.
#[derive(Clone, Copy, Debug, PartialEq, Eq)]
pub enum Lack {
    /// A column that lies past its fields.
    Column,
    /// A topic: its name is none of those that there are.
    Topic,
}
