ghost use Rattle.std.specs.Prelude.{◌≡◌, ◌<◌, IfSome};
ghost use Rattle.hc_lex.specs.Mark as spec;

/// A mark of the language.
#[derive(Clone, Copy, Debug, PartialEq, Eq)]
pub enum Mark {
    /// `{`
    BraceOpen,
    /// `}`
    BraceClose,
    /// `(`
    ParenOpen,
    /// `)`
    ParenClose,
    /// `[`
    BracketOpen,
    /// `]`
    BracketClose,
    /// `;`
    Semicolon,
    /// `,`
    Comma,
    /// `:`
    Colon,
    /// `.`
    Dot,
    /// `?`
    Question,
    /// `=`
    Assign,
    /// `+`
    Plus,
    /// `-`
    Minus,
    /// `*`
    Star,
    /// `/`
    Slash,
    /// `%`
    Percent,
    /// `&`
    And,
    /// `|`
    Or,
    /// `^`
    Xor,
    /// `~`
    Tilde,
    /// `!`
    Not,
    /// `<`
    Less,
    /// `>`
    Greater,
    /// `@`
    At,
    /// `++`
    Increment,
    /// `--`
    Decrement,
    /// `<<`
    ShiftLeft,
    /// `>>`
    ShiftRight,
    /// `<=`
    LessEqual,
    /// `>=`
    GreaterEqual,
    /// `==`
    Equal,
    /// `!=`
    NotEqual,
    /// `&&`
    AndAnd,
    /// `||`
    OrOr,
    /// `<-`
    Take,
    /// `\\`
    Drop,
    /// `+=`
    AddAssign,
    /// `-=`
    SubtractAssign,
    /// `*=`
    MultiplyAssign,
    /// `/=`
    DivideAssign,
    /// `%=`
    RemainderAssign,
    /// `&=`
    AndAssign,
    /// `|=`
    OrAssign,
    /// `^=`
    XorAssign,
    /// `<<=`
    ShiftLeftAssign,
    /// `>>=`
    ShiftRightAssign,
}

/// The mark of one byte.
#[tactic(auto, unfolding(crate::specs::Mark::one))]
pub(crate) fn one(b: u8) -> Option<Mark>
    ensures { result ≡ spec.one b }
{
    match b {
        b'{' => Some(Mark::BraceOpen),
        b'}' => Some(Mark::BraceClose),
        b'(' => Some(Mark::ParenOpen),
        b')' => Some(Mark::ParenClose),
        b'[' => Some(Mark::BracketOpen),
        b']' => Some(Mark::BracketClose),
        b';' => Some(Mark::Semicolon),
        b',' => Some(Mark::Comma),
        b':' => Some(Mark::Colon),
        b'.' => Some(Mark::Dot),
        b'?' => Some(Mark::Question),
        b'=' => Some(Mark::Assign),
        b'+' => Some(Mark::Plus),
        b'-' => Some(Mark::Minus),
        b'*' => Some(Mark::Star),
        b'/' => Some(Mark::Slash),
        b'%' => Some(Mark::Percent),
        b'&' => Some(Mark::And),
        b'|' => Some(Mark::Or),
        b'^' => Some(Mark::Xor),
        b'~' => Some(Mark::Tilde),
        b'!' => Some(Mark::Not),
        b'<' => Some(Mark::Less),
        b'>' => Some(Mark::Greater),
        b'@' => Some(Mark::At),
        _ => None,
    }
}

/// The mark of a byte and `=`.
#[tactic(auto, unfolding(crate::specs::Mark::with_equals))]
fn with_equals(b: u8) -> Option<Mark>
    ensures { result ≡ spec.with_equals b }
{
    match b {
        b'<' => Some(Mark::LessEqual),
        b'>' => Some(Mark::GreaterEqual),
        b'=' => Some(Mark::Equal),
        b'!' => Some(Mark::NotEqual),
        b'+' => Some(Mark::AddAssign),
        b'-' => Some(Mark::SubtractAssign),
        b'*' => Some(Mark::MultiplyAssign),
        b'/' => Some(Mark::DivideAssign),
        b'%' => Some(Mark::RemainderAssign),
        b'&' => Some(Mark::AndAssign),
        b'|' => Some(Mark::OrAssign),
        b'^' => Some(Mark::XorAssign),
        _ => None,
    }
}

/// The mark of a byte that stands twice.
#[tactic(auto, unfolding(crate::specs::Mark::doubled))]
fn doubled(b: u8) -> Option<Mark>
    ensures value { result ≡ spec.doubled b }
    ensures byte { IfSome result (λ _. 0 < b) }
{
    match b {
        b'+' => Some(Mark::Increment),
        b'-' => Some(Mark::Decrement),
        b'<' => Some(Mark::ShiftLeft),
        b'>' => Some(Mark::ShiftRight),
        b'&' => Some(Mark::AndAnd),
        b'|' => Some(Mark::OrOr),
        b'\\' => Some(Mark::Drop),
        _ => None,
    }
}

/// The mark of two bytes.
#[tactic(auto, unfolding(crate::specs::Mark::two))]
pub(crate) fn two(b: u8, c: u8) -> Option<Mark>
    ensures value { result ≡ spec.two b c }
    ensures byte { IfSome result (λ _. 0 < c) }
{
    if c == b'=' {
        return with_equals(b);
    }
    if b == b'<' && c == b'-' {
        return Some(Mark::Take);
    }
    if b == c { doubled(b) } else { None }
}

/// The mark of three bytes.
#[tactic(auto, unfolding(crate::specs::Mark::three))]
pub(crate) fn three(b: u8, c: u8, d: u8) -> Option<Mark>
    ensures value { result ≡ spec.three b c d }
    ensures byte { IfSome result (λ _. 0 < d) }
{
    if b != c || d != b'=' {
        return None;
    }
    match b {
        b'<' => Some(Mark::ShiftLeftAssign),
        b'>' => Some(Mark::ShiftRightAssign),
        _ => None,
    }
}
