//! The events that instructions show.
ghost use Rattle.std.specs.Prelude.{◌≡◌};
ghost use Rattle.word_machine.specs.Events as spec;

use crate::cell::Sign;
use devices::Event;
use word_isa::MarkKind;

/// The site of an event that comes also without a mark.
pub fn site_of(sign: Option<Sign>) -> u8
    ensures { result ≡ spec.site_of sign }
{
    match sign {
        None => 0,
        Some(sign) => sign.site,
    }
}

/// The event of an instruction that has one with a mark alone; a kept result shows the word.
pub fn marked(sign: Option<Sign>, word: u32) -> Option<Event>
    ensures { result ≡ spec.marked sign word }
{
    match sign {
        None => None,
        Some(sign) => event_of(sign.kind, sign.site, word),
    }
}

// The event that a mark gives to an instruction without one of its own.
fn event_of(kind: MarkKind, site: u8, word: u32) -> Option<Event>
    ensures { result ≡ spec.event_of kind site word }
{
    match kind {
        MarkKind::Begin => Some(Event::Begin(site)),
        MarkKind::Kept => Some(Event::Kept(site, word)),
        MarkKind::Drop => Some(Event::Dropped(site)),
        MarkKind::Seal => Some(Event::Sealed(site)),
        MarkKind::Commit => Some(Event::Commit(site)),
        MarkKind::Look | MarkKind::Issue | MarkKind::Copy => None,
    }
}
