ghost use Rattle.std.specs.Prelude.{◌≡◌, ◌≤◌, ◌∷◌, ℕ, List, find, slice_range};
ghost use Rattle.sf_lex.specs.Symbols.{symbol_bytes};
ghost use Rattle.sf_lex.specs.Scanning.{begins_with, symbol_of};

/// A symbol of the language.
#[derive(Clone, Copy, Debug, PartialEq, Eq)]
pub enum Symbol {
    /// `-->`
    Initially,
    /// `>--`
    OnFirstInput,
    /// `>=-`
    MapsFirstInput,
    /// `>>>`
    InSequence,
    /// `***`
    InParallel,
    /// `&&&`
    FannedOut,
    /// `~>`
    Leads,
    /// `=>`
    MapsTo,
    /// `==`
    IsEqual,
    /// `!=`
    IsDifferent,
    /// `<=`
    AtMost,
    /// `>=`
    AtLeast,
    /// `<`
    Less,
    /// `>`
    Greater,
    /// `+`
    Plus,
    /// `-`
    Minus,
    /// `*`
    Times,
    /// `(`
    Open,
    /// `)`
    Close,
    /// `[`
    OpenBracket,
    /// `]`
    CloseBracket,
    /// `,`
    Comma,
    /// `:`
    Colon,
    /// `;`
    Semicolon,
    /// `=`
    Equals,
}

/// All symbols, by their first bytes, and of one first byte none before a longer one.
const SYMBOLS: [Symbol; 25] = [
    Symbol::IsDifferent,
    Symbol::FannedOut,
    Symbol::Open,
    Symbol::Close,
    Symbol::InParallel,
    Symbol::Times,
    Symbol::Plus,
    Symbol::Comma,
    Symbol::Initially,
    Symbol::Minus,
    Symbol::Colon,
    Symbol::Semicolon,
    Symbol::AtMost,
    Symbol::Less,
    Symbol::MapsTo,
    Symbol::IsEqual,
    Symbol::Equals,
    Symbol::OnFirstInput,
    Symbol::MapsFirstInput,
    Symbol::InSequence,
    Symbol::AtLeast,
    Symbol::Greater,
    Symbol::OpenBracket,
    Symbol::CloseBracket,
    Symbol::Leads,
];

impl Symbol {
    /// The symbol itself.
    pub fn text(self) -> &'static str
        ensures { result.now ≡ symbol_bytes self }
    {
        match self {
            Symbol::Initially => "-->",
            Symbol::OnFirstInput => ">--",
            Symbol::MapsFirstInput => ">=-",
            Symbol::InSequence => ">>>",
            Symbol::InParallel => "***",
            Symbol::FannedOut => "&&&",
            Symbol::Leads => "~>",
            Symbol::MapsTo => "=>",
            Symbol::IsEqual => "==",
            Symbol::IsDifferent => "!=",
            Symbol::AtMost => "<=",
            Symbol::AtLeast => ">=",
            Symbol::Less => "<",
            Symbol::Greater => ">",
            Symbol::Plus => "+",
            Symbol::Minus => "-",
            Symbol::Times => "*",
            Symbol::Open => "(",
            Symbol::Close => ")",
            Symbol::OpenBracket => "[",
            Symbol::CloseBracket => "]",
            Symbol::Comma => ",",
            Symbol::Colon => ":",
            Symbol::Semicolon => ";",
            Symbol::Equals => "=",
        }
    }
}

/// The longest symbol that these bytes begin with.
#[tactic(auto, unfolding(crate::specs::Scanning::symbol_of))]
pub(crate) fn symbol_of(bytes: &[u8]) -> Option<Symbol>
    ensures { result ≡ symbol_of bytes.now }
{
    match bytes {
        [] => None,
        [first, ..] => {
            let (from, to) = place_of(*first);
            symbol_among(&SYMBOLS[from..to], bytes)
        }
    }
}

/// Where the symbols that begin with this byte stand among all symbols.
fn place_of(first: u8) -> (usize, usize)
    ensures within { (result.0 ≤ result.1) × (result.1 ≤ 25) }
    ensures all { (rest : List ℕ) → find (begins_with (first ∷ rest)) (slice_range SYMBOLS result.0 result.1) ≡ symbol_of (first ∷ rest) }
{
    match first {
        b'!' => (0, 1),
        b'&' => (1, 2),
        b'(' => (2, 3),
        b')' => (3, 4),
        b'*' => (4, 6),
        b'+' => (6, 7),
        b',' => (7, 8),
        b'-' => (8, 10),
        b':' => (10, 11),
        b';' => (11, 12),
        b'<' => (12, 14),
        b'=' => (14, 17),
        b'>' => (17, 22),
        b'[' => (22, 23),
        b']' => (23, 24),
        b'~' => (24, 25),
        _ => (0, 0),
    }
}

fn symbol_among(symbols: &[Symbol], bytes: &[u8]) -> Option<Symbol>
    ensures { result ≡ find (begins_with bytes.now) symbols.now }
{
    for symbol in symbols {
        if bytes.starts_with(symbol.text().as_bytes()) {
            return Some(*symbol);
        }
    }
    None
}
