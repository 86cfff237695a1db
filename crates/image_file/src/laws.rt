//! What holds of every image's bytes, as contracts of functions that do nothing.
ghost use Rattle.std.specs.Prelude.{◌≡◌};
ghost use Rattle.word_isa.specs.declared.image.Image.{Image};
ghost use Rattle.image_file.specs.Bytes.{HasFields, image_bytes, raw_of};

/// Different images have different bytes.
#[tactic(auto, using(crate::proofs::ImageLaws::same_bytes))]
pub fn images_with_the_same_bytes_are_the_same()
    ensures { (i j : Image) → HasFields i → HasFields j → image_bytes i ≡ image_bytes j → raw_of i ≡ raw_of j }
{}
