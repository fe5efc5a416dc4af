//! Comparisons of whole numbers.

/// One of `=:=`, `=\=`, `<`, `>`, `=<` and `>=`.
#[derive(Clone, Copy, Debug, PartialEq, Eq)]
pub enum Cmp {
    Eq,
    Ne,
    Lt,
    Gt,
    Le,
    Ge,
}
