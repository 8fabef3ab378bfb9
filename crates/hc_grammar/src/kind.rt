ghost use Rattle.std.specs.Prelude.{◌≡◌, option_map, find};
ghost use Rattle.std.specs.Str.{bytes_eq};
ghost use Rattle.hc_grammar.specs.Kind as spec;

use hc_lex::{Mark, Token};

/// What a token is to the grammar.
#[derive(Clone, Copy, Debug, PartialEq, Eq)]
pub enum Kind {
    Break,
    Case,
    Chan,
    Default,
    Delay,
    Do,
    Else,
    External,
    For,
    If,
    IfSelect,
    Int,
    Interface,
    Macro,
    Par,
    Prialt,
    Ram,
    Rom,
    Select,
    Seq,
    Set,
    Signal,
    Signed,
    Static,
    Switch,
    Unsigned,
    Void,
    While,
    Width,
    With,
    /// The name `main`. It and the seven below are names that the grammar quotes in some places.
    Main,
    Clock,
    Family,
    Part,
    Expr,
    Proc,
    BusIn,
    BusOut,
    /// Any other name.
    Name,
    Number,
    Text,
    Mark(Mark),
}

const RESERVED: [(&[u8], Kind); 30] = [
    (b"break", Kind::Break),
    (b"case", Kind::Case),
    (b"chan", Kind::Chan),
    (b"default", Kind::Default),
    (b"delay", Kind::Delay),
    (b"do", Kind::Do),
    (b"else", Kind::Else),
    (b"external", Kind::External),
    (b"for", Kind::For),
    (b"if", Kind::If),
    (b"ifselect", Kind::IfSelect),
    (b"int", Kind::Int),
    (b"interface", Kind::Interface),
    (b"macro", Kind::Macro),
    (b"par", Kind::Par),
    (b"prialt", Kind::Prialt),
    (b"ram", Kind::Ram),
    (b"rom", Kind::Rom),
    (b"select", Kind::Select),
    (b"seq", Kind::Seq),
    (b"set", Kind::Set),
    (b"signal", Kind::Signal),
    (b"signed", Kind::Signed),
    (b"static", Kind::Static),
    (b"switch", Kind::Switch),
    (b"unsigned", Kind::Unsigned),
    (b"void", Kind::Void),
    (b"while", Kind::While),
    (b"width", Kind::Width),
    (b"with", Kind::With),
];

const QUOTED: [(&[u8], Kind); 8] = [
    (b"main", Kind::Main),
    (b"clock", Kind::Clock),
    (b"family", Kind::Family),
    (b"part", Kind::Part),
    (b"expr", Kind::Expr),
    (b"proc", Kind::Proc),
    (b"bus_in", Kind::BusIn),
    (b"bus_out", Kind::BusOut),
];

/// The kind that a table gives a word.
fn find<'a>(table: &[(&'a [u8], Kind)], word: &[u8]) -> Option<Kind>
    ensures { result ≡ option_map (λ e. e.1) (find (λ e. bytes_eq e.0.now word.now) table.now) }
{
    match table.iter().find(|entry| entry.0 == word) {
        Some(entry) => Some(entry.1),
        None => None,
    }
}

fn listed<'a>(table: &[(&'a [u8], Kind)], word: &[u8]) -> Option<Kind>
    ensures { result ≡ spec.listed (spec.entries table.now) word.now }
{
    find(table, word)
}

fn reserved(word: &[u8]) -> Option<Kind>
    ensures { result ≡ spec.listed spec.reserved word.now }
{
    listed(&RESERVED, word)
}

fn quoted(word: &[u8]) -> Option<Kind>
    ensures { result ≡ spec.listed spec.quoted word.now }
{
    listed(&QUOTED, word)
}

#[tactic(auto, unfolding(crate::specs::Kind::word_kind))]
fn word_kind(word: &[u8]) -> Kind
    ensures { result ≡ spec.word_kind word.now }
{
    match reserved(word) {
        Some(kind) => kind,
        None => match quoted(word) {
            Some(kind) => kind,
            None => Kind::Name,
        },
    }
}

/// What a token is to the grammar.
#[tactic(auto, unfolding(crate::specs::Kind::token_kind))]
pub(crate) fn token_kind(token: &Token) -> Kind
    ensures { result ≡ spec.token_kind token.now }
{
    match token {
        Token::Word(word) => word_kind(word.as_bytes()),
        Token::Number(_) => Kind::Number,
        Token::Text(_) => Kind::Text,
        Token::Mark(mark) => Kind::Mark(*mark),
    }
}

impl Kind {
    /// Whether it is a name: a word that isn't reserved.
    #[tactic(auto, unfolding(crate::specs::Kind::is_name))]
    pub fn is_name(self) -> bool
        ensures { result ≡ spec.is_name self }
    {
        match self {
            Kind::Main
            | Kind::Clock
            | Kind::Family
            | Kind::Part
            | Kind::Expr
            | Kind::Proc
            | Kind::BusIn
            | Kind::BusOut
            | Kind::Name => true,
            Kind::Break
            | Kind::Case
            | Kind::Chan
            | Kind::Default
            | Kind::Delay
            | Kind::Do
            | Kind::Else
            | Kind::External
            | Kind::For
            | Kind::If
            | Kind::IfSelect
            | Kind::Int
            | Kind::Interface
            | Kind::Macro
            | Kind::Par
            | Kind::Prialt
            | Kind::Ram
            | Kind::Rom
            | Kind::Select
            | Kind::Seq
            | Kind::Set
            | Kind::Signal
            | Kind::Signed
            | Kind::Static
            | Kind::Switch
            | Kind::Unsigned
            | Kind::Void
            | Kind::While
            | Kind::Width
            | Kind::With
            | Kind::Number
            | Kind::Text
            | Kind::Mark(_) => false,
        }
    }
}
