//! Tokens as the grammar sees them.

/// A symbol.
#[derive(Clone, Copy)]
pub enum Sign {
    EqColonEq,
    EqBackEq,
    EqLess,
    GreaterEq,
    BackEq,
    SlashSlash,
    Equal,
    Less,
    Greater,
    Plus,
    Minus,
    Star,
    Ask,
}

/// A token. `direct` says that no layout stands before it. A quoted name is what stands between its
/// quotes.
#[derive(Clone, Copy)]
pub enum Token<'a> {
    Variable(u32),
    Integer {
        direct: bool,
        value: u64,
        place: usize,
    },
    Word(&'a [u8]),
    Quoted(&'a [u8]),
    Symbol(Sign),
    Open(bool),
    Close,
    OpenList,
    CloseList,
    Comma,
    Bar,
}

/// The tokens that are left.
pub type Tokens<'a> = &'a [Token<'a>];
