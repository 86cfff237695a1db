//! What is known of one site since the last commit.
ghost use Rattle.std.specs.Prelude.{◌≡◌};
ghost use Rattle.ease_debug.specs.Trails as spec;

use crate::why::Why;
use devices::Event;

/// What the debugger keeps of a site's events; it has the same size however many there were.
#[derive(Clone, Copy, Debug, PartialEq, Eq)]
pub struct Trail {
    /// Why the attempt's last look, kept, issue or copy came.
    pub answer: Why,
    /// An earlier attempt made a record.
    pub sealed: bool,
    /// A drop came behind the last record of an earlier attempt.
    pub dropped: bool,
    /// The same at the attempt's last look, where it has one.
    pub at_look: Option<bool>,
    /// An attempt made a record, this one or an earlier one.
    pub sealed_so_far: bool,
    /// A drop came behind the last record of all.
    pub dropped_so_far: bool,
}

impl Trail {
    /// Nothing happened at the site since the last commit.
    pub const fn untrodden() -> Trail
        ensures { result ≡ spec.untrodden }
    {
        Trail {
            answer: Why::NotReached,
            sealed: false,
            dropped: false,
            at_look: None,
            sealed_so_far: false,
            dropped_so_far: false,
        }
    }

    /// What is known behind an event of the site in the attempt.
    pub fn seen(self, event: Event) -> Trail
        ensures { result ≡ spec.seen event self }
    {
        match event {
            Event::Begin(_) | Event::Commit(_) => self,
            Event::Look(_, _) => Trail {
                answer: Why::Looked,
                at_look: Some(self.dropped),
                ..self
            },
            Event::Kept(_, _) => Trail {
                answer: Why::Kept,
                ..self
            },
            Event::Dropped(_) => Trail {
                dropped: true,
                dropped_so_far: true,
                ..self
            },
            Event::Issued(_, _, _, _) => self.again(self.at_look.unwrap_or(self.dropped)),
            Event::Sealed(_) => Trail {
                sealed_so_far: true,
                dropped_so_far: false,
                ..self
            },
            Event::Copied(_, _, _, _) => self.again(self.dropped),
        }
    }

    // An issue or a copy, by whether there was a drop.
    fn again(self, dropped: bool) -> Trail
        ensures { result ≡ record self { answer = spec.going_again self.sealed dropped } }
    {
        Trail {
            answer: going_again(self.sealed, dropped),
            ..self
        }
    }

    /// What is known behind a boot or a begin: all so far was before the attempt.
    pub fn rolled(self) -> Trail
        ensures { result ≡ spec.rolled self }
    {
        Trail {
            answer: Why::NotReached,
            sealed: self.sealed_so_far,
            dropped: self.dropped_so_far,
            at_look: None,
            ..self
        }
    }
}

// An issue or a copy, by whether an earlier attempt made a record and by whether there was a drop.
fn going_again(sealed: bool, dropped: bool) -> Why
    ensures { result ≡ spec.going_again sealed dropped }
{
    if !sealed {
        return Why::First;
    }
    if dropped { Why::Dropped } else { Why::Repeated }
}
