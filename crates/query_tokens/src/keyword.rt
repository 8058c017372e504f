ghost use Rattle.std.specs.Prelude.{◌≡◌};
ghost use Rattle.query_tokens.specs.Words.{same_keyword, word_of};

/// The words that are no names.
#[derive(Clone, Copy, Debug, PartialEq, Eq)]
pub enum Keyword {
    Relation,
    Of,
    Rows,
    Trust,
    Release,
    Filter,
    Where,
    And,
    Select,
    Concat,
    Join,
    On,
    Group,
    By,
    Sum,
    Count,
    Least,
    Greatest,
    Distinct,
    Output,
    To,
    At,
    Most,
    Parts,
    Via,
    Clear,
    Num,
    Text,
    True,
    False,
    Open,
}

/// Every keyword, once.
pub const KEYWORDS: [Keyword; 31] = [
    Keyword::Relation,
    Keyword::Of,
    Keyword::Rows,
    Keyword::Trust,
    Keyword::Release,
    Keyword::Filter,
    Keyword::Where,
    Keyword::And,
    Keyword::Select,
    Keyword::Concat,
    Keyword::Join,
    Keyword::On,
    Keyword::Group,
    Keyword::By,
    Keyword::Sum,
    Keyword::Count,
    Keyword::Least,
    Keyword::Greatest,
    Keyword::Distinct,
    Keyword::Output,
    Keyword::To,
    Keyword::At,
    Keyword::Most,
    Keyword::Parts,
    Keyword::Via,
    Keyword::Clear,
    Keyword::Num,
    Keyword::Text,
    Keyword::True,
    Keyword::False,
    Keyword::Open,
];

impl Keyword {
    /// Whether they are the same keyword.
    pub fn is(self, other: Keyword) -> bool
        ensures { result ≡ same_keyword self other }
    {
        self == other
    }

    /// The word as it is written, in lower case.
    pub fn word(self) -> &'static [u8]
        ensures { result.now ≡ word_of self }
    {
        match self {
            Keyword::Relation => b"relation",
            Keyword::Of => b"of",
            Keyword::Rows => b"rows",
            Keyword::Trust => b"trust",
            Keyword::Release => b"release",
            Keyword::Filter => b"filter",
            Keyword::Where => b"where",
            Keyword::And => b"and",
            Keyword::Select => b"select",
            Keyword::Concat => b"concat",
            Keyword::Join => b"join",
            Keyword::On => b"on",
            Keyword::Group => b"group",
            Keyword::By => b"by",
            Keyword::Sum => b"sum",
            Keyword::Count => b"count",
            Keyword::Least => b"least",
            Keyword::Greatest => b"greatest",
            Keyword::Distinct => b"distinct",
            Keyword::Output => b"output",
            Keyword::To => b"to",
            Keyword::At => b"at",
            Keyword::Most => b"most",
            Keyword::Parts => b"parts",
            Keyword::Via => b"via",
            Keyword::Clear => b"clear",
            Keyword::Num => b"num",
            Keyword::Text => b"text",
            Keyword::True => b"true",
            Keyword::False => b"false",
            Keyword::Open => b"open",
        }
    }
}
