//! What an audit answers on the report of a sound image, as the contracts of functions that do nothing.
ghost use Rattle.std.specs.Prelude.{◌+◌, ◌<◌, ◌≤◌, ◌^◌, false, length};
ghost use Rattle.audit_laws.specs.Answers.{IsAnswer, legal};
ghost use Rattle.audit_sound.specs.RightJournal.{IsRight};
ghost use Rattle.devices.specs.World.{IsWithinLimits};
ghost use Rattle.power_trace.specs.Run.{journal_on, report_on};
ghost use Rattle.sound_images.specs.Sound.{IsSound};
ghost use Rattle.task_ast.specs.WellFormed.{IsWellFormed};

use audit_laws::the_report_of_a_right_journal_is_legal;
use devices::World;
use journal_fits::{
    the_end_of_a_journal_fits_its_power, the_numbers_of_a_journal_are_words,
    the_rules_name_the_peripherals_of_a_program, the_steps_of_a_journal_fit_its_power,
};
use task_ast::Core;
use word_isa::{Image, Scheme};

/// The journal of a sound image on a world within the limits is right, if its boots are fewer than a word counts: it can be written
/// with the program's names, the rules allow it, and its steps and its end fit the world's power.
pub fn the_journal_of_a_sound_image_is_right(c: &Core, scheme: Scheme, image: &Image, world: &World)
    requires formed { IsWellFormed c.now }
    requires limits { IsWithinLimits world.now }
    ensures { IsSound c.now scheme image.now → length (journal_on image.now world.now).boots + 1 < 2 ^ 32 → IsRight c.now world.now (journal_on image.now world.now) }
{
    the_numbers_of_a_journal_are_words(image, world);
    the_rules_name_the_peripherals_of_a_program();
    the_steps_of_a_journal_fit_its_power();
    the_end_of_a_journal_fits_its_power();
}

/// The audit of the report of any sound image, on any world within the limits, answers that it is legal. Boots are numbered by words,
/// so one of two bounds is asked: power rows that are fewer than a word counts, or a report of at most 67,108,864 bytes.
pub fn the_report_of_a_sound_image_is_legal(c: &Core, scheme: Scheme, image: &Image, world: &World)
    requires formed { IsWellFormed c.now }
    requires limits { IsWithinLimits world.now }
    ensures rows { IsSound c.now scheme image.now → length world.now.power + 1 < 2 ^ 32 → IsAnswer c.now world.now (report_on image.now world.now false) legal }
    ensures bytes { IsSound c.now scheme image.now → length (report_on image.now world.now false) ≤ 67108864 → IsAnswer c.now world.now (report_on image.now world.now false) legal }
{
    the_journal_of_a_sound_image_is_right(c, scheme, image, world);
    the_report_of_a_right_journal_is_legal(c, world);
}
