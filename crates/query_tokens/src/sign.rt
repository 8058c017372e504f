ghost use Rattle.std.specs.Prelude.{◌≡◌};
ghost use Rattle.query_tokens.specs.Words.{same_sign, sign_text};

/// The signs of a query.
#[derive(Clone, Copy, Debug, PartialEq, Eq)]
pub enum Sign {
    LeftParen,
    RightParen,
    Comma,
    Assign,
    Equal,
    NotEqual,
    Less,
    LessEqual,
    Greater,
    GreaterEqual,
    Plus,
    Minus,
    Star,
    Ampersand,
    Bar,
}

/// Every sign, once; those of two bytes stand before those of one.
pub const SIGNS: [Sign; 15] = [
    Sign::Equal,
    Sign::NotEqual,
    Sign::LessEqual,
    Sign::GreaterEqual,
    Sign::LeftParen,
    Sign::RightParen,
    Sign::Comma,
    Sign::Assign,
    Sign::Less,
    Sign::Greater,
    Sign::Plus,
    Sign::Minus,
    Sign::Star,
    Sign::Ampersand,
    Sign::Bar,
];

impl Sign {
    /// Whether they are the same sign.
    pub fn is(self, other: Sign) -> bool
        ensures { result ≡ same_sign self other }
    {
        self == other
    }

    /// The sign as it is written.
    pub fn text(self) -> &'static [u8]
        ensures { result.now ≡ sign_text self }
    {
        match self {
            Sign::LeftParen => b"(",
            Sign::RightParen => b")",
            Sign::Comma => b",",
            Sign::Assign => b"=",
            Sign::Equal => b"==",
            Sign::NotEqual => b"!=",
            Sign::Less => b"<",
            Sign::LessEqual => b"<=",
            Sign::Greater => b">",
            Sign::GreaterEqual => b">=",
            Sign::Plus => b"+",
            Sign::Minus => b"-",
            Sign::Star => b"*",
            Sign::Ampersand => b"&",
            Sign::Bar => b"|",
        }
    }
}
