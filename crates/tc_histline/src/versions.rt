//! The versions of the text.

/// Which version a text is of. The second one says more of a centre that was full.
#[derive(Clone, Copy, Debug, PartialEq, Eq)]
pub enum Version {
    One,
    Two,
}
