//! The parts of an image: schemes and symbols.
ghost use Rattle.std.specs.Prelude.{◌≡◌, Some};
ghost use Rattle.word_isa.specs.Codes as spec;

use ease_base::Text;
use task_ast::Kind;

/// How nonvolatile words are kept whole over a power failure: by putting old words back, or by two banks.
#[derive(Clone, Copy, Debug, PartialEq, Eq)]
pub enum Scheme {
    Undo,
    Bank,
}

impl Scheme {
    /// The scheme that a byte of an image stands for, 0 or 1.
    pub fn of(code: u8) -> Option<Scheme>
        ensures { result ≡ spec.scheme_of code }
    {
        match code {
            0 => Some(Scheme::Undo),
            1 => Some(Scheme::Bank),
            _ => None,
        }
    }

    /// The byte that stands for the scheme in an image.
    pub fn code(self) -> u8
        ensures value { result ≡ spec.scheme_code self }
        ensures back { spec.scheme_of result ≡ Some self }
    {
        match self {
            Scheme::Undo => 0,
            Scheme::Bank => 1,
        }
    }
}

/// The kind of a symbol that a byte of an image stands for: 0 nonvolatile, 1 constant, 2 volatile.
pub fn kind_of(code: u8) -> Option<Kind>
    ensures { result ≡ spec.kind_of code }
{
    match code {
        0 => Some(Kind::Nv),
        1 => Some(Kind::Const),
        2 => Some(Kind::Vol),
        _ => None,
    }
}

/// The byte that stands for the kind of a symbol in an image.
pub fn kind_code(kind: Kind) -> u8
    ensures value { result ≡ spec.kind_code kind }
    ensures back { spec.kind_of result ≡ Some kind }
{
    match kind {
        Kind::Nv => 0,
        Kind::Const => 1,
        Kind::Vol => 2,
    }
}

/// Words of a program by name: where they lie, from which address on, and how many they are.
#[derive(Drop)]
pub struct Symbol {
    pub name: Text,
    pub kind: Kind,
    pub base: u32,
    pub length: u32,
}
