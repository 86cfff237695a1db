//! Single tokens, each put behind a text with a space behind it.
ghost use Rattle.std.specs.Prelude.{◌≡◌, ◌++◌, ◌∷◌, [], OnOk};
ghost use Rattle.task_print.specs.Printed.{Puts, word, mark, named, numbered};

use ease_base::{NoMemory, Text, put_number};
use task_ast::Name;
use task_tokens::{Keyword, Sign};

fn put_spaced(out: &mut Text, bytes: &[u8]) -> Result<(), NoMemory>
    ensures { OnOk result (out.new ≡ out.old ++ (bytes.now ++ 32 ∷ [])) }
{
    out.extend(bytes)?;
    out.push(b' ')?;
    Ok(())
}

pub fn put_word(out: &mut Text, k: Keyword) -> Result<(), NoMemory>
    ensures { OnOk result (Puts out.old (word k) out.new) }
{
    put_spaced(out, k.letters())
}

pub fn put_sign(out: &mut Text, s: Sign) -> Result<(), NoMemory>
    ensures { OnOk result (Puts out.old (mark s) out.new) }
{
    put_spaced(out, s.marks())
}

pub fn put_name(out: &mut Text, x: &Name) -> Result<(), NoMemory>
    ensures { OnOk result (Puts out.old (named x.now) out.new) }
{
    put_spaced(out, x.text.as_slice())
}

/// The number in decimal.
pub fn put_numeral(out: &mut Text, n: u32) -> Result<(), NoMemory>
    ensures { OnOk result (Puts out.old (numbered n) out.new) }
{
    put_number(out, u64::from(n))?;
    out.push(b' ')?;
    Ok(())
}
