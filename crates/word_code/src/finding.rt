//! The statement of a call or a copy, by its site.
ghost use Rattle.std.specs.Prelude.{◌≡◌};
ghost use Rattle.std.specs.Option.{option_copied};
ghost use Rattle.word_code.specs.Finding as spec;

use task_ast::CoreStmt;

// The call or copy of a site in a statement.
#[cycle(find)]
fn find_in<'a>(s: &'a CoreStmt, site: u32) -> Option<&'a CoreStmt>
    ensures { option_copied result ≡ spec.found_in site s.now }
{
    match s {
        CoreStmt::Io(k, ..) | CoreStmt::Copy(k, ..) => { if *k == site { Some(s) } else { None } }
        CoreStmt::If(_, yes_part, no_part) => match find(yes_part.as_slice(), site) {
            Some(s) => Some(s),
            None => find(no_part.as_slice(), site),
        },
        CoreStmt::Block(_, body) => find(body.as_slice(), site),
        CoreStmt::Assign(..) | CoreStmt::Point(..) | CoreStmt::Loop(..) => None,
    }
}

/// The call or copy of a site in statements; None where there is none.
#[cycle(find)]
pub fn find<'a>(body: &'a [CoreStmt], site: u32) -> Option<&'a CoreStmt>
    ensures { option_copied result ≡ spec.found site body.now }
{
    'statements: for s in body {
        match find_in(s, site) {
            Some(found) => return Some(found),
            None => {}
        }
    }
    None
}
