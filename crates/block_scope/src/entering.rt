//! The table of blocks: the mode inside, by the mode outside and the block's record.
ghost use Rattle.std.specs.Prelude.{◌≡◌, ◌≤◌};
ghost use Rattle.std.specs.Option.{ForSome};
ghost use Rattle.block_scope.specs.Enter.{entered, own_entered};

use io_annot::{Mode, is_expired};
use task_ast::Ann;

/// The mode inside a block that begins at time `t`, with the stamp of its record (docs/LANGUAGE.md, "Annotations").
/// A stamp is the time of an earlier beginning.
pub fn enter(mode: Mode, ann: Ann, kept: Option<u32>, t: u32) -> Mode
    requires past { ForSome kept (λ stamp. stamp ≤ t) }
    ensures { result ≡ entered mode ann kept t }
{
    match mode {
        Mode::Keep => Mode::Keep,
        Mode::Force => Mode::Force,
        Mode::Own => own_mode(ann, kept, t),
    }
}

// The mode inside a block around which no block keeps or forces.
fn own_mode(ann: Ann, kept: Option<u32>, t: u32) -> Mode
    requires past { ForSome kept (λ stamp. stamp ≤ t) }
    ensures { result ≡ own_entered ann kept t }
{
    match (ann, kept) {
        (Ann::Always, _) => Mode::Force,
        (Ann::Single | Ann::Timely(_), None) => Mode::Own,
        (Ann::Single, Some(_)) => Mode::Keep,
        (Ann::Timely(ticks), Some(stamp)) => {
            if is_expired(ticks, stamp, t) {
                Mode::Force
            } else {
                Mode::Keep
            }
        }
    }
}
