//! Laws of the ELF files of images.

ghost use Rattle.std.specs.Prelude.{◌≡◌, None};
ghost use Rattle.fy_base.specs.Outside.{Bytes};
ghost use Rattle.fy_elf.specs.Elf.{IsElfBytes};
ghost use Rattle.fy_elf.specs.Memory.{LoadsAsStart};
ghost use Rattle.fy_elf.specs.Refusals.{refusal_of};
ghost use Rattle.fy_image.specs.declared.image.Image.{Image};

/// An image has at most one ELF file, bytes are that of at most one image, and the ELF file of an image has no field
/// that isn't as it has to be. A loader makes of it the memory that the image's machine starts with. It does nothing.
pub fn laws_of_elf()
    ensures one_spelling { (image : Image) (a b : Bytes) → IsElfBytes image a → IsElfBytes image b → a ≡ b }
    ensures one_image { (a b : Image) (bytes : Bytes) → IsElfBytes a bytes → IsElfBytes b bytes → a ≡ b }
    ensures accepted { (image : Image) (bytes : Bytes) → IsElfBytes image bytes → refusal_of bytes ≡ None }
    ensures loads { (image : Image) (bytes : Bytes) → IsElfBytes image bytes → LoadsAsStart image bytes }
{}
