//! Laws of the image form.

ghost use Rattle.std.specs.Prelude.{◌≡◌, ℕ, ◌<◌, ◌≤◌, ◌^◌, None, length, true};
ghost use Rattle.fy_base.specs.Outside.{Bytes};
ghost use Rattle.fy_image.specs.Form.{IsImageBytes, IsSpelled, short};
ghost use Rattle.fy_image.specs.Refusals.{grouped, is_short, refusal_of};
ghost use Rattle.fy_image.specs.declared.image.Image.{Image};
ghost use Rattle.fy_image.specs.declared.version.Version.{Version};
ghost use Rattle.fy_image.specs.declared.version.Version.TheVariants.{Two};

/// An image has at most one spelling of each version, bytes are those of at most one image, and the
/// bytes of an image have no field that fails. Bytes of an image that are spelled anew in version 2
/// are those of the same image. A number of four bytes that isn't 0 has a short form, which stands
/// for no other. It does nothing.
pub fn laws_of_images()
    ensures one_spelling { (version : Version) (image : Image) (a b : Bytes) → IsSpelled version image a → IsSpelled version image b → a ≡ b }
    ensures one_image { (a b : Image) (bytes : Bytes) → IsImageBytes a bytes → IsImageBytes b bytes → a ≡ b }
    ensures accepted { (image : Image) (bytes : Bytes) → IsImageBytes image bytes → refusal_of bytes ≡ None }
    ensures migrated { (image other : Image) (old new : Bytes) → IsImageBytes image old → IsSpelled Two image new
        → IsImageBytes other new → other ≡ image }
    ensures short_numbers { (n : ℕ) → 0 < n → n < 2 ^ 32 → (is_short (short n) ≡ true) × (grouped (short n) ≡ n) }
{}
