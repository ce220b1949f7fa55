//! Tokens, each with the text that it is.

/// A mark of one or two characters.
#[derive(Clone, Copy, PartialEq, Eq)]
pub enum Mark {
    /// `**`
    Power,
    /// `(`
    Open,
    /// `)`
    Close,
    /// `<`
    Less,
    /// `>`
    Greater,
    /// `,`
    Comma,
    /// `=`
    Equal,
    /// `:`
    Colon,
    /// `*`
    Star,
    /// `/`
    Slash,
    /// `+`
    Plus,
    /// `-`
    Minus,
    /// `.`
    Dot,
    /// `$`
    Dollar,
    /// `@`
    At,
    /// `?`
    Question,
    /// `&`
    Ampersand,
    /// `|`
    Bar,
    /// `~`
    Tilde,
}

/// What kind of token a text is.
#[derive(Clone, Copy, PartialEq, Eq)]
pub enum TokenKind {
    /// A run of blanks.
    Blank,
    /// A letter, then letters, digits, dots and underscores.
    Name,
    /// Digits.
    Integer,
    /// A text in quotes, the quotes included.
    Literal,
    /// An operator, a bracket or another mark.
    Mark(Mark),
}

/// A token of a statement's text.
#[derive(Clone, Copy)]
pub struct Token<'a> {
    /// What it is.
    pub kind: TokenKind,
    /// The index of its first byte in the statement's text.
    pub start: usize,
    /// One more than the index of its last byte.
    pub end: usize,
    /// Its bytes.
    pub text: &'a [u8],
}
