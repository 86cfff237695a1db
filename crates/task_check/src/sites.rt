//! Where sites are: a loop with sites is unrolled.
ghost use Rattle.std.specs.Prelude.{◌≡◌};
ghost use Rattle.task_check.specs.Sites.{body_has_sites as body_has, has_sites as has};

use task_ast::Stmt;

/// Whether a call, a block or a copy stands in a statement, at any depth.
#[cycle(find_sites)]
fn has_sites(s: &Stmt) -> bool
    ensures { result ≡ has s.now }
{
    match s {
        Stmt::Assign(..) | Stmt::Point(..) => false,
        Stmt::If(_, yes_part, no_part) => {
            body_has_sites(yes_part.as_slice()) || body_has_sites(no_part.as_slice())
        }
        Stmt::For(_, _, _, body, _) => body_has_sites(body.as_slice()),
        Stmt::Io(..) | Stmt::Block(..) | Stmt::Dma(..) => true,
    }
}

/// Whether one stands in a body; the loop around it is then unrolled.
#[cycle(find_sites)]
pub fn body_has_sites(body: &[Stmt]) -> bool
    ensures { result ≡ body_has body.now }
{
    for s in body {
        if has_sites(s) {
            return true;
        }
    }
    false
}
