//! A debugger: a machine on its way, and what is known of its sites.
ghost use Rattle.std.specs.Prelude.{◌≡◌, ◌+◌, ◌<◌, ◌≤◌, ◌==◌, ◌&&◌, ◌||◌, true, not, IfOk, OnOk, ℕ, List, length};
ghost use Rattle.std.specs.Bool.{OnFalse};
ghost use Rattle.devices.specs.Reading.{values_in};
ghost use Rattle.devices.specs.World.{AreDistinct};
ghost use Rattle.ease_debug.specs.Past.{why};
ghost use Rattle.ease_debug.specs.Session as spec;
ghost use Rattle.ease_debug.specs.Session.{Session};
ghost use Rattle.ease_debug.specs.Shown.{show_line, regs_line, why_line};
ghost use Rattle.ease_debug.specs.Standing as held;
ghost use Rattle.ease_debug.specs.Standing.{Stands, Stays, Goes, Steps};
ghost use Rattle.ease_debug.specs.Trails.{trails_in};
ghost use Rattle.power_trace.specs.Live.{state_of, program_in_live};
ghost use Rattle.power_trace.specs.Run.{program_in};
ghost use Rattle.power_trace.specs.Writing.{Writes};
ghost use Rattle.word_machine.specs.declared.ending.Ending.TheVariants as ending;

use crate::end::DebugEnd;
use crate::shown::{send, send_registers, send_why, send_words};
use crate::stop::{Stop, stops, tasks_of};
use crate::trails::Trails;
use devices::{Clock, Feed, Outside, PowerRow, Readings};
use ease_base::{Failed, List, NoMemory, Sink};
use power_trace::{Live, boot_line, send_told};
use std::alloc::Global;
use std::marker::Model;
use word_isa::Image;
use word_machine::{Ending, Machine, Stepped};

/// The most steps of a session.
const MOST_STEPS: u32 = 4_194_304;

/// The most ticks of a session.
const MOST_TICKS: u32 = 4_294_967_295;

/// A session under way.
#[derive(Drop)]
pub struct Debugger<'a> {
    image: &'a Image,
    live: Live,
    ending: Ending,
    trails: Trails,
    boot: u64,
    spent: bool,
    tasks: Vec<u8>,
}

impl<'a> Model for Debugger<'a> {
    ghost use Rattle.ease_debug.specs.Standing.{Held, IsSound};

    ghost Value = { Held };

    ghost view = { λ d. record { image = d.image.now; live = d.live; ending = d.ending; trails = d.trails; boot = d.boot; spent = d.spent } };

    ghost invariant = { λ d. IsSound d.live d.ending d.tasks.items d.image.now.marks };
}

impl<'a> Debugger<'a> {
    /// A session before its first command. It takes all the memory of the session.
    pub fn make(
        alloc: Global,
        image: &'a Image,
        feeds: &List<Feed>,
    ) -> Result<Debugger<'a>, NoMemory>
        requires { AreDistinct feeds.now }
        ensures stands { IfOk result (λ d. Stands d (spec.first image.now)) }
        ensures image { IfOk result (λ d. d.image ≡ image.now) }
        ensures program { IfOk result (λ d. program_in_live d.live ≡ program_in image.now (values_in feeds.now)) }
        ensures boot { IfOk result (λ d. d.boot ≡ 1) }
    {
        let machine = Machine::load(alloc, image)?;
        let outside = Outside {
            readings: Readings::make(alloc, feeds)?,
            clock: Clock::new(),
        };
        let trails = Trails::make(alloc)?;
        let tasks = tasks_of(alloc, image.code.len(), image.marks.as_slice())?;
        let live = Live {
            machine,
            outside,
            steps: 0,
        };
        Ok(Debugger {
            image,
            live,
            ending: Ending::Running,
            trails,
            boot: 1,
            spent: false,
            tasks,
        })
    }

    // Whether the machine goes on and the session isn't spent.
    fn goes_on(&self) -> bool
        ensures { result ≡ held.goes_on self.now }
    {
        if self.spent {
            return false;
        }
        match self.ending {
            Ending::Running => true,
            Ending::Halted | Ending::Trapped(_) => false,
        }
    }

    // Whether all steps or all ticks are used.
    fn is_full(&self) -> bool
        ensures full { result ≡ held.is_full self.now }
        ensures room { OnFalse result ((self.now.live.steps < 4194304) × (self.now.live.outside.clock < 4294967295)) }
    {
        self.live.steps == MOST_STEPS || self.live.outside.clock.now() == MOST_TICKS
    }

    /// Does at most so many steps, up to and with the first that stops, and writes the lines of their events.
    pub fn go<K: Sink>(&mut self, stop: Stop, most: u32, out: &mut K) -> Result<(), Failed>
        ensures goes { (s : Session) → Stands self.old s
            → Goes result self.new (K.taken out.old) (K.taken out.new) (K.faults out.old) (K.faults out.new) (spec.going self.old.image stop (program_in_live self.old.live) most s) }
        ensures stays { OnOk result (Stays self.old self.new) }
        ensures boot { OnOk result (self.new.boot ≡ self.old.boot) }
    {
        'steps: for _done in 0..most {
            if !self.goes_on() {
                return Ok(());
            }
            if self.is_full() {
                self.spend();
                return Ok(());
            }
            if self.step(stop, out)? {
                return Ok(());
            }
        }
        Ok(())
    }

    // The session is spent.
    fn spend(&mut self)
        ensures { self.new ≡ record self.old { spent = true } }
    {
        self.spent = true;
    }

    // Does one step, and says whether it stops.
    fn step<K: Sink>(&mut self, stop: Stop, out: &mut K) -> Result<bool, Failed>
        requires steps { self.old.live.steps < 4194304 }
        requires clock { self.old.live.outside.clock < 4294967295 }
        ensures steps { (s : Session) → Stands self.old s → spec.goes_on s ≡ true
            → Steps result self.new (K.taken out.old) (K.taken out.new) (K.faults out.old) (K.faults out.new)
            (spec.stops self.old.image stop (program_in_live self.old.live) s.state) (spec.one_step self.old.image (program_in_live self.old.live) s) }
        ensures stays { OnOk result (Stays self.old self.new) }
        ensures boot { OnOk result (self.new.boot ≡ self.old.boot) }
    {
        let at = self.live.machine.pc();
        let told = self.live.step();
        let ending = ending_of(told);
        self.ending = ending;
        hear(&mut self.trails, told);
        send_told(self.image, true, self.live.steps, told, out)?;
        Ok(stops(&self.tasks, stop, at, told))
    }

    /// A power failure, with the line of the next boot.
    pub fn fail<K: Sink>(&mut self, off: u32, fill: u32, out: &mut K) -> Result<(), Failed>
        requires { self.old.boot < 18446744073709551615 }
        ensures goes { (s : Session) → Stands self.old s
            → Goes result self.new (K.taken out.old) (K.taken out.new) (K.faults out.old) (K.faults out.new) (spec.failing off fill s) }
        ensures stays { OnOk result (Stays self.old self.new) }
        ensures boot { OnOk result (self.new.boot ≤ self.old.boot + 1) }
    {
        if !self.goes_on() {
            return Ok(());
        }
        if MOST_TICKS - self.live.outside.clock.now() < off {
            self.spend();
            return Ok(());
        }
        self.live.fail(PowerRow { on: 0, off, fill });
        self.trails.boot();
        self.boot += 1;
        send(boot_line(true, self.live.steps, self.boot).as_slice(), out)
    }

    /// Writes the line of the words of the symbol at this place of the image.
    pub fn show<K: Sink>(&self, place: u32, out: &mut K) -> Result<(), Failed>
        requires { place < length self.now.image.symbols }
        ensures { (s : Session) → Stands self.now s
            → Writes result (K.taken out.old) (K.taken out.new) (K.faults out.old) (K.faults out.new) (show_line self.now.image place s.state.store) }
    {
        let symbol = &self.image.symbols.as_slice()[place as usize];
        send_words(&self.live.machine, self.image, symbol, out)
    }

    /// Writes the line of the counter and the registers.
    pub fn registers<K: Sink>(&self, out: &mut K) -> Result<(), Failed>
        ensures { (s : Session) → Stands self.now s
            → Writes result (K.taken out.old) (K.taken out.new) (K.faults out.old) (K.faults out.new) (regs_line s.state.pc s.state.regs) }
    {
        send_registers(&self.live.machine, out)
    }

    /// Writes the line of why the site was last decided as it was.
    pub fn why<K: Sink>(&self, site: u8, out: &mut K) -> Result<(), Failed>
        ensures { (s : Session) → Stands self.now s
            → Writes result (K.taken out.old) (K.taken out.new) (K.faults out.old) (K.faults out.new) (why_line site (why site s.past)) }
    {
        send_why(site, self.trails.answer(site), out)
    }

    /// How the session ends here.
    pub fn end(&self) -> DebugEnd
        ensures { (s : Session) → Stands self.now s → result ≡ spec.end_of s }
    {
        match self.ending {
            Ending::Halted => DebugEnd::Halted,
            Ending::Trapped(code) => DebugEnd::Trapped(code),
            Ending::Running => {
                if self.spent {
                    DebugEnd::Power
                } else {
                    DebugEnd::Script
                }
            }
        }
    }
}

// How the machine is behind a step, by its answer.
fn ending_of(told: Stepped) -> Ending
    ensures { result ≡ held.ending_of told }
{
    match told {
        Stepped::Ran(_) => Ending::Running,
        Stepped::Halted => Ending::Halted,
        Stepped::Trapped(code) => Ending::Trapped(code),
    }
}

// Takes in what a step answers.
fn hear(trails: &mut Trails, told: Stepped)
    ensures { trails_in trails.new ≡ held.heard told (trails_in trails.old) }
{
    match told {
        Stepped::Ran(Some(event)) => trails.note(event),
        Stepped::Ran(None) | Stepped::Halted | Stepped::Trapped(_) => {}
    }
}
