ghost use Rattle.query_tokens.specs.Longest.{ReadsLongest};
ghost use Rattle.query_tokens.specs.Print.{ReadsBack};
ghost use Rattle.query_tokens.specs.Real.{TokensAreReal};

/// The token that is read is the longest front of the bytes that is a token's text: a word, digits, a
/// quoted text or a sign. Limits are looked at afterwards.
pub fn reads_longest()
    ensures { ReadsLongest }
{}

/// Tokens that a text can have are read back from what `print_tokens` writes of them, and with an LF
/// behind it that is one line of any text.
pub fn reads_back()
    ensures { ReadsBack }
{}

/// Each token of a line is one that a text can have, unless it is bad: names are names, numbers are below
/// 2^64, and quoted texts can stand between quotes.
pub fn tokens_are_real()
    ensures { TokensAreReal }
{}
