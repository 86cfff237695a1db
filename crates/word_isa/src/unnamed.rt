//! Images without names: code, words of FRAM and marks, and neither symbols nor peripherals.
ghost use Rattle.std.specs.Prelude.{◌≡◌, is_some, IfSome};
ghost use Rattle.std.specs.Option.{is_none};
ghost use Rattle.word_isa.specs.Checks.{first_too_large};
ghost use Rattle.word_isa.specs.ImageTests.{unnamed_passes};

use crate::checks::first_bad_word;
use crate::image::Image;
use crate::mark::Mark;
use crate::marks::first_bad_mark;
use crate::parts::Scheme;
use ease_base::{List, Words};
use std::alloc::Global;

/// The image of version 1 with this code, these first words of FRAM and these marks, with one bank, no kept words, and neither
/// symbols nor peripherals. None exactly where a count, a code word or a mark fails its test.
pub fn unnamed_image(alloc: Global, code: Words, fram: Words, marks: List<Mark>) -> Option<Image>
    ensures found { is_some result ≡ unnamed_passes code fram marks }
    ensures code { IfSome result (λ i. i.code ≡ code) }
    ensures fram { IfSome result (λ i. i.fram ≡ fram) }
    ensures marks { IfSome result (λ i. i.marks ≡ marks) }
{
    if !counts_pass(code.len(), fram.len(), marks.len()) {
        return None;
    }
    let None = first_bad_word(code.as_slice()) else {
        return None;
    };
    let None = first_bad_mark(1, code.as_slice(), marks.as_slice()) else {
        return None;
    };
    Some(Image {
        version: 1,
        scheme: Scheme::Undo,
        state: 0,
        stride: 0,
        keep: 0,
        keep_words: 0,
        code,
        fram,
        symbols: List::new(alloc),
        peripherals: List::new(alloc),
        marks,
    })
}

// Whether none of these counts is past its limit.
fn counts_pass(code: usize, fram: usize, marks: usize) -> bool
    ensures { result ≡ is_none (first_too_large code fram 0 0 marks) }
{
    code <= 4_194_304 && fram <= 65_536 && marks <= 2_097_152
}
