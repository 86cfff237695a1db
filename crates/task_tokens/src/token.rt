//! Tokens: names, numbers, reserved words and signs, each with its place.
ghost use Rattle.std.specs.Prelude.{◌≡◌};
ghost use Rattle.task_tokens.specs.Spelling as spec;

use ease_base::{Pos, Text};

/// The reserved words, which are no names.
#[derive(Clone, Copy, PartialEq, Eq)]
pub enum Keyword {
    Nv,
    Const,
    Word,
    Peripheral,
    Task,
    If,
    Else,
    For,
    Io,
    IoBlock,
    Dma,
    Next,
    Stop,
    Single,
    Timely,
    Always,
}

/// The signs.
#[derive(Clone, Copy, PartialEq, Eq)]
pub enum Sign {
    BraceOpen,
    BraceClose,
    ParenOpen,
    ParenClose,
    BracketOpen,
    BracketClose,
    Semicolon,
    Comma,
    Equal,
    Ampersand,
    Bar,
    Caret,
    Tilde,
    Bang,
    Plus,
    Minus,
    Star,
    Slash,
    Percent,
    Less,
    Greater,
    EqualEqual,
    BangEqual,
    LessEqual,
    GreaterEqual,
    LessLess,
    GreaterGreater,
    AmpersandAmpersand,
    BarBar,
    PlusPlus,
}

/// What a token is.
#[derive(Drop)]
pub enum Lexeme {
    Name(Text),
    Number(u32),
    /// A number above 4294967295.
    TooWide,
    Reserved(Keyword),
    Symbol(Sign),
}

/// A token and the place of its first byte.
#[derive(Drop)]
pub struct Token {
    pub lexeme: Lexeme,
    pub at: Pos,
}

/// Each reserved word.
pub const KEYWORDS: [Keyword; 16] = [
    Keyword::Nv,
    Keyword::Const,
    Keyword::Word,
    Keyword::Peripheral,
    Keyword::Task,
    Keyword::If,
    Keyword::Else,
    Keyword::For,
    Keyword::Io,
    Keyword::IoBlock,
    Keyword::Dma,
    Keyword::Next,
    Keyword::Stop,
    Keyword::Single,
    Keyword::Timely,
    Keyword::Always,
];

/// Each sign, the likelier ones first, and each that goes on from another before it.
pub const SIGNS: [Sign; 30] = [
    Sign::Semicolon,
    Sign::ParenOpen,
    Sign::ParenClose,
    Sign::BracketOpen,
    Sign::BracketClose,
    Sign::BraceOpen,
    Sign::BraceClose,
    Sign::Comma,
    Sign::EqualEqual,
    Sign::Equal,
    Sign::PlusPlus,
    Sign::Plus,
    Sign::Minus,
    Sign::Star,
    Sign::LessEqual,
    Sign::LessLess,
    Sign::Less,
    Sign::AmpersandAmpersand,
    Sign::Ampersand,
    Sign::Slash,
    Sign::Percent,
    Sign::BangEqual,
    Sign::Bang,
    Sign::GreaterEqual,
    Sign::GreaterGreater,
    Sign::Greater,
    Sign::BarBar,
    Sign::Bar,
    Sign::Caret,
    Sign::Tilde,
];

impl Keyword {
    pub fn letters(self) -> &'static [u8]
        ensures { result.now ≡ spec.letters self }
    {
        match self {
            Keyword::Nv => b"nv",
            Keyword::Const => b"const",
            Keyword::Word => b"word",
            Keyword::Peripheral => b"peripheral",
            Keyword::Task => b"task",
            Keyword::If => b"if",
            Keyword::Else => b"else",
            Keyword::For => b"for",
            Keyword::Io => b"IO",
            Keyword::IoBlock => b"IO_BLOCK",
            Keyword::Dma => b"DMA",
            Keyword::Next => b"NEXT",
            Keyword::Stop => b"STOP",
            Keyword::Single => b"SINGLE",
            Keyword::Timely => b"TIMELY",
            Keyword::Always => b"ALWAYS",
        }
    }
}

impl Sign {
    pub fn marks(self) -> &'static [u8]
        ensures { result.now ≡ spec.marks self }
    {
        match self {
            Sign::EqualEqual => b"==",
            Sign::BangEqual => b"!=",
            Sign::LessEqual => b"<=",
            Sign::GreaterEqual => b">=",
            Sign::LessLess => b"<<",
            Sign::GreaterGreater => b">>",
            Sign::AmpersandAmpersand => b"&&",
            Sign::BarBar => b"||",
            Sign::PlusPlus => b"++",
            Sign::BraceOpen => b"{",
            Sign::BraceClose => b"}",
            Sign::ParenOpen => b"(",
            Sign::ParenClose => b")",
            Sign::BracketOpen => b"[",
            Sign::BracketClose => b"]",
            Sign::Semicolon => b";",
            Sign::Comma => b",",
            Sign::Equal => b"=",
            Sign::Ampersand => b"&",
            Sign::Bar => b"|",
            Sign::Caret => b"^",
            Sign::Tilde => b"~",
            Sign::Bang => b"!",
            Sign::Plus => b"+",
            Sign::Minus => b"-",
            Sign::Star => b"*",
            Sign::Slash => b"/",
            Sign::Percent => b"%",
            Sign::Less => b"<",
            Sign::Greater => b">",
        }
    }
}
