//! Keywords.

ghost use Rattle.std.specs.Prelude.{◌≡◌};
ghost use Rattle.model.specs.Language.Names.{is_protected, key_name, key_named};

/// A keyword, in the order of the codes that modules have for them.
#[derive(Clone, Copy)]
pub enum KeyId {
    Anchor,
    FullScan,
    Trim,
    Input,
    Output,
    StLimit,
    MaxLngth,
    Alphabet,
    StCount,
    StNo,
    LastNo,
    StFCount,
    FncLevel,
    RtnType,
}

impl KeyId {
    /// Every keyword, in the order of the codes.
    pub const ALL: [KeyId; 14] = [
        KeyId::Anchor,
        KeyId::FullScan,
        KeyId::Trim,
        KeyId::Input,
        KeyId::Output,
        KeyId::StLimit,
        KeyId::MaxLngth,
        KeyId::Alphabet,
        KeyId::StCount,
        KeyId::StNo,
        KeyId::LastNo,
        KeyId::StFCount,
        KeyId::FncLevel,
        KeyId::RtnType,
    ];

    /// The name, which a deck writes behind `&`.
    pub fn name(self) -> &'static str
        ensures { result.now ≡ key_name self }
    {
        match self {
            KeyId::Anchor => "ANCHOR",
            KeyId::FullScan => "FULLSCAN",
            KeyId::Trim => "TRIM",
            KeyId::Input => "INPUT",
            KeyId::Output => "OUTPUT",
            KeyId::StLimit => "STLIMIT",
            KeyId::MaxLngth => "MAXLNGTH",
            KeyId::Alphabet => "ALPHABET",
            KeyId::StCount => "STCOUNT",
            KeyId::StNo => "STNO",
            KeyId::LastNo => "LASTNO",
            KeyId::StFCount => "STFCOUNT",
            KeyId::FncLevel => "FNCLEVEL",
            KeyId::RtnType => "RTNTYPE",
        }
    }

    /// The keyword of this name, if there is one.
    #[tactic(auto, unfolding(crate::specs::Language::Names::key_named, crate::specs::Language::Names::named))]
    pub fn named(name: &[u8]) -> Option<KeyId>
        ensures { result ≡ key_named name.now }
    {
        KeyId::ALL
            .iter()
            .copied()
            .find(|key| key.name().as_bytes() == name)
    }

    /// Whether no statement may assign it.
    pub fn is_protected(self) -> bool
        ensures { result ≡ is_protected self }
    {
        match self {
            KeyId::Alphabet
            | KeyId::StCount
            | KeyId::StNo
            | KeyId::LastNo
            | KeyId::StFCount
            | KeyId::FncLevel
            | KeyId::RtnType => true,
            KeyId::Anchor
            | KeyId::FullScan
            | KeyId::Trim
            | KeyId::Input
            | KeyId::Output
            | KeyId::StLimit
            | KeyId::MaxLngth => false,
        }
    }
}
