//! Primitive functions.

ghost use Rattle.std.specs.Prelude.{◌≡◌};
ghost use Rattle.model.specs.Language.Names.{is_newer, most_args, prim_at, prim_name, prim_named};

use crate::image::Level;

/// A primitive function, in the order of the codes that modules have for them.
#[derive(Clone, Copy)]
pub enum PrimId {
    Len,
    Pos,
    RPos,
    Tab,
    RTab,
    Any,
    NotAny,
    Span,
    Break,
    Arbno,
    Eq,
    Ne,
    Lt,
    Le,
    Gt,
    Ge,
    Lgt,
    Ident,
    Differ,
    Integer,
    Size,
    Trim,
    Dupl,
    Replace,
    Remdr,
    DataType,
    Array,
    Table,
    Item,
    Copy,
    Convert,
    Data,
    Define,
    Apply,
    Input,
    Output,
    Detach,
    Fence,
}

impl PrimId {
    /// Every primitive, in the order of the codes.
    pub const ALL: [PrimId; 38] = [
        PrimId::Len,
        PrimId::Pos,
        PrimId::RPos,
        PrimId::Tab,
        PrimId::RTab,
        PrimId::Any,
        PrimId::NotAny,
        PrimId::Span,
        PrimId::Break,
        PrimId::Arbno,
        PrimId::Eq,
        PrimId::Ne,
        PrimId::Lt,
        PrimId::Le,
        PrimId::Gt,
        PrimId::Ge,
        PrimId::Lgt,
        PrimId::Ident,
        PrimId::Differ,
        PrimId::Integer,
        PrimId::Size,
        PrimId::Trim,
        PrimId::Dupl,
        PrimId::Replace,
        PrimId::Remdr,
        PrimId::DataType,
        PrimId::Array,
        PrimId::Table,
        PrimId::Item,
        PrimId::Copy,
        PrimId::Convert,
        PrimId::Data,
        PrimId::Define,
        PrimId::Apply,
        PrimId::Input,
        PrimId::Output,
        PrimId::Detach,
        PrimId::Fence,
    ];

    /// The name by which a deck calls it.
    pub fn name(self) -> &'static str
        ensures { result.now ≡ prim_name self }
    {
        match self {
            PrimId::Len => "LEN",
            PrimId::Pos => "POS",
            PrimId::RPos => "RPOS",
            PrimId::Tab => "TAB",
            PrimId::RTab => "RTAB",
            PrimId::Any => "ANY",
            PrimId::NotAny => "NOTANY",
            PrimId::Span => "SPAN",
            PrimId::Break => "BREAK",
            PrimId::Arbno => "ARBNO",
            PrimId::Eq => "EQ",
            PrimId::Ne => "NE",
            PrimId::Lt => "LT",
            PrimId::Le => "LE",
            PrimId::Gt => "GT",
            PrimId::Ge => "GE",
            PrimId::Lgt => "LGT",
            PrimId::Ident => "IDENT",
            PrimId::Differ => "DIFFER",
            PrimId::Integer => "INTEGER",
            PrimId::Size => "SIZE",
            PrimId::Trim => "TRIM",
            PrimId::Dupl => "DUPL",
            PrimId::Replace => "REPLACE",
            PrimId::Remdr => "REMDR",
            PrimId::DataType => "DATATYPE",
            PrimId::Array => "ARRAY",
            PrimId::Table => "TABLE",
            PrimId::Item => "ITEM",
            PrimId::Copy => "COPY",
            PrimId::Convert => "CONVERT",
            PrimId::Data => "DATA",
            PrimId::Define => "DEFINE",
            PrimId::Apply => "APPLY",
            PrimId::Input => "INPUT",
            PrimId::Output => "OUTPUT",
            PrimId::Detach => "DETACH",
            PrimId::Fence => "FENCE",
        }
    }

    /// The primitive of this name, if there is one.
    #[tactic(auto, unfolding(crate::specs::Language::Names::prim_named, crate::specs::Language::Names::named))]
    pub fn named(name: &[u8]) -> Option<PrimId>
        ensures { result ≡ prim_named name.now }
    {
        PrimId::ALL
            .iter()
            .copied()
            .find(|primitive| primitive.name().as_bytes() == name)
    }

    /// Whether it came with level 2.
    pub fn is_newer(self) -> bool
        ensures { result ≡ is_newer self }
    {
        matches!(self, PrimId::Fence)
    }

    /// The primitive of this name at a level, if there is one.
    pub fn named_at(level: Level, name: &[u8]) -> Option<PrimId>
        ensures { result ≡ prim_at level name.now }
    {
        let primitive = PrimId::named(name)?;
        match level {
            Level::One => {
                if primitive.is_newer() {
                    None
                } else {
                    Some(primitive)
                }
            }
            Level::Two => Some(primitive),
        }
    }

    /// How many arguments a call may have at most.
    pub fn most_arguments(self) -> usize
        ensures { result ≡ most_args self }
    {
        match self {
            PrimId::Len
            | PrimId::Pos
            | PrimId::RPos
            | PrimId::Tab
            | PrimId::RTab
            | PrimId::Any
            | PrimId::NotAny
            | PrimId::Span
            | PrimId::Break
            | PrimId::Arbno
            | PrimId::Integer
            | PrimId::Size
            | PrimId::Trim
            | PrimId::DataType
            | PrimId::Copy
            | PrimId::Data
            | PrimId::Detach
            | PrimId::Fence => 1,
            PrimId::Eq
            | PrimId::Ne
            | PrimId::Lt
            | PrimId::Le
            | PrimId::Gt
            | PrimId::Ge
            | PrimId::Lgt
            | PrimId::Ident
            | PrimId::Differ
            | PrimId::Dupl
            | PrimId::Remdr
            | PrimId::Array
            | PrimId::Table
            | PrimId::Convert
            | PrimId::Define => 2,
            PrimId::Replace | PrimId::Input | PrimId::Output => 3,
            PrimId::Item => 9,
            PrimId::Apply => 255,
        }
    }
}
