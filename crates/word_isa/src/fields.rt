//! The fields of an instruction's word.
ghost use Rattle.std.specs.Prelude.{◌≡◌};
ghost use Rattle.word_isa.specs.Fields.{code_field, a_field, b_field, m_field, t_field};

/// The fields of a word, as the table at `Instr` says; T shares its bits with A, B and M.
#[derive(Clone, Copy)]
pub struct Fields {
    pub code: u8,
    pub a: u8,
    pub b: u8,
    pub m: u16,
    pub t: u32,
}

/// The fields of the word.
pub fn split(word: u32) -> Fields
    ensures { result ≡ record { code = code_field word; a = a_field word; b = b_field word; m = m_field word; t = t_field word } }
{
    Fields {
        code: (word >> 24) as u8,
        a: (word >> 20 & 15) as u8,
        b: (word >> 16 & 15) as u8,
        m: (word & 0xffff) as u16,
        t: word & 0xff_ffff,
    }
}
