//! What holds of every form, as the contract of a function that changes nothing.
ghost use Rattle.std.specs.Prelude.{◌≡◌, [], map, string_bytes, Some};
ghost use Rattle.clap.specs.Words.{fault_of};
ghost use Rattle.command_line.specs.Form.{Form, form_of};
ghost use Rattle.command_line.specs.Words.{ease_app};

use crate::line::words_are_texts;

/// Each form is a line of words that `clap` takes: its parse fails for want of memory alone.
pub fn forms_are_taken(words: &[String])
    ensures { (f : Form) → form_of (map string_bytes words.now) ≡ Some f → fault_of ease_app (map string_bytes words.now) ≡ [] }
{
    words_are_texts(words);
}
