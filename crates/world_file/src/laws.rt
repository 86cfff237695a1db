//! Whose peripherals `read_world` may be given, as contracts of functions that do nothing.
ghost use Rattle.task_ast.specs.WellFormed.{IsWellFormed};
ghost use Rattle.task_ast.specs.declared.core_form.Core.{Core};
ghost use Rattle.word_isa.specs.declared.image.Image.{Image};
ghost use Rattle.world_file.specs.Peripherals.{AreApart};

/// The peripherals of a checked program are apart.
pub fn peripherals_of_a_program_are_apart()
    ensures { (c : Core) → IsWellFormed c → AreApart c.peripherals }
{}

/// Those of an image are apart.
pub fn peripherals_of_an_image_are_apart()
    ensures { (image : Image) → AreApart image.peripherals }
{}
