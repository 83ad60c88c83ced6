// The punctuators.
ghost use Rattle.std.specs.Prelude.{◌≡◌};
ghost use Rattle.qs_syntax_vocabulary.specs.Punctuators.{punctuator_of, punctuator_spelling};

/// The punctuators (C11 6.4.6): all but `...`, `#`, `##` and the digraphs.
#[derive(Clone, Copy, Debug, PartialEq, Eq)]
pub enum Punctuator {
    /// `[`
    OpenBracket,
    /// `]`
    CloseBracket,
    /// `(`
    OpenParenthesis,
    /// `)`
    CloseParenthesis,
    /// `{`
    OpenBrace,
    /// `}`
    CloseBrace,
    /// `.`
    Dot,
    /// `->`
    Arrow,
    /// `++`
    Increment,
    /// `--`
    Decrement,
    /// `&`
    Ampersand,
    /// `*`
    Star,
    /// `+`
    Plus,
    /// `-`
    Minus,
    /// `~`
    Tilde,
    /// `!`
    Exclamation,
    /// `/`
    Slash,
    /// `%`
    Percent,
    /// `<<`
    ShiftLeft,
    /// `>>`
    ShiftRight,
    /// `<`
    Less,
    /// `>`
    Greater,
    /// `<=`
    LessEqual,
    /// `>=`
    GreaterEqual,
    /// `==`
    Equal,
    /// `!=`
    NotEqual,
    /// `^`
    Caret,
    /// `|`
    Bar,
    /// `&&`
    AndAnd,
    /// `||`
    OrOr,
    /// `?`
    Question,
    /// `:`
    Colon,
    /// `;`
    Semicolon,
    /// `=`
    Assign,
    /// `*=`
    MultiplyAssign,
    /// `/=`
    DivideAssign,
    /// `%=`
    RemainderAssign,
    /// `+=`
    AddAssign,
    /// `-=`
    SubtractAssign,
    /// `<<=`
    ShiftLeftAssign,
    /// `>>=`
    ShiftRightAssign,
    /// `&=`
    AndAssign,
    /// `^=`
    XorAssign,
    /// `|=`
    OrAssign,
    /// `,`
    Comma,
}

const PUNCTUATORS: [Punctuator; 45] = [
    Punctuator::OpenBracket,
    Punctuator::CloseBracket,
    Punctuator::OpenParenthesis,
    Punctuator::CloseParenthesis,
    Punctuator::OpenBrace,
    Punctuator::CloseBrace,
    Punctuator::Dot,
    Punctuator::Arrow,
    Punctuator::Increment,
    Punctuator::Decrement,
    Punctuator::Ampersand,
    Punctuator::Star,
    Punctuator::Plus,
    Punctuator::Minus,
    Punctuator::Tilde,
    Punctuator::Exclamation,
    Punctuator::Slash,
    Punctuator::Percent,
    Punctuator::ShiftLeft,
    Punctuator::ShiftRight,
    Punctuator::Less,
    Punctuator::Greater,
    Punctuator::LessEqual,
    Punctuator::GreaterEqual,
    Punctuator::Equal,
    Punctuator::NotEqual,
    Punctuator::Caret,
    Punctuator::Bar,
    Punctuator::AndAnd,
    Punctuator::OrOr,
    Punctuator::Question,
    Punctuator::Colon,
    Punctuator::Semicolon,
    Punctuator::Assign,
    Punctuator::MultiplyAssign,
    Punctuator::DivideAssign,
    Punctuator::RemainderAssign,
    Punctuator::AddAssign,
    Punctuator::SubtractAssign,
    Punctuator::ShiftLeftAssign,
    Punctuator::ShiftRightAssign,
    Punctuator::AndAssign,
    Punctuator::XorAssign,
    Punctuator::OrAssign,
    Punctuator::Comma,
];

impl Punctuator {
    /// How it is spelled.
    pub fn spelling(self) -> &'static [u8]
        ensures { result.now ≡ punctuator_spelling self }
    {
        match self {
            Punctuator::OpenBracket => b"[",
            Punctuator::CloseBracket => b"]",
            Punctuator::OpenParenthesis => b"(",
            Punctuator::CloseParenthesis => b")",
            Punctuator::OpenBrace => b"{",
            Punctuator::CloseBrace => b"}",
            Punctuator::Dot => b".",
            Punctuator::Arrow => b"->",
            Punctuator::Increment => b"++",
            Punctuator::Decrement => b"--",
            Punctuator::Ampersand => b"&",
            Punctuator::Star => b"*",
            Punctuator::Plus => b"+",
            Punctuator::Minus => b"-",
            Punctuator::Tilde => b"~",
            Punctuator::Exclamation => b"!",
            Punctuator::Slash => b"/",
            Punctuator::Percent => b"%",
            Punctuator::ShiftLeft => b"<<",
            Punctuator::ShiftRight => b">>",
            Punctuator::Less => b"<",
            Punctuator::Greater => b">",
            Punctuator::LessEqual => b"<=",
            Punctuator::GreaterEqual => b">=",
            Punctuator::Equal => b"==",
            Punctuator::NotEqual => b"!=",
            Punctuator::Caret => b"^",
            Punctuator::Bar => b"|",
            Punctuator::AndAnd => b"&&",
            Punctuator::OrOr => b"||",
            Punctuator::Question => b"?",
            Punctuator::Colon => b":",
            Punctuator::Semicolon => b";",
            Punctuator::Assign => b"=",
            Punctuator::MultiplyAssign => b"*=",
            Punctuator::DivideAssign => b"/=",
            Punctuator::RemainderAssign => b"%=",
            Punctuator::AddAssign => b"+=",
            Punctuator::SubtractAssign => b"-=",
            Punctuator::ShiftLeftAssign => b"<<=",
            Punctuator::ShiftRightAssign => b">>=",
            Punctuator::AndAssign => b"&=",
            Punctuator::XorAssign => b"^=",
            Punctuator::OrAssign => b"|=",
            Punctuator::Comma => b",",
        }
    }

    /// The punctuator that is spelled so.
    #[tactic(auto, unfolding(crate::specs::Punctuators::punctuator_of))]
    pub fn of(spelling: &[u8]) -> Option<Punctuator>
        ensures { result ≡ punctuator_of spelling.now }
    {
        PUNCTUATORS
            .iter()
            .copied()
            .find(|punctuator| punctuator.spelling() == spelling)
    }
}
