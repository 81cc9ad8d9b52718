//! Reading an image.

ghost use Rattle.fy_image.specs.declared.error.ImageError.TheVariants as errors;
ghost use Rattle.fy_image.specs.declared.image.Image.{Image};
ghost use Rattle.fy_image.specs.Reading.{HeaderFits, IsBody, body_refusal, header_bytes, lists_behind};
ghost use Rattle.std.specs.Prelude.{◌≡◌, ◌++◌, ℕ, drop, IfOk, IfErr, MatchResult, None};
ghost use Rattle.fy_image.specs.Form.{IsImageBytes};
ghost use Rattle.fy_image.specs.Refusals.{IsCause, IsJudged, first_refusal, refusal_of};

use crate::error::ImageError;
use crate::fields::Fields;
use crate::image::Image;
use crate::version::Version;
use std::alloc::Global;

/// The longest file of an image, in bytes.
const MOST_BYTES: usize = 33_554_432;

// The numbers behind the version, but for the zero.
#[derive(Clone, Copy)]
struct Header {
    stack_words: u32,
    code_words: u32,
    table_words: u32,
    places: u32,
}

#[tactic(auto, unfolding(crate::specs::Reading::body_refusal))]
fn read_header(version: Version, fields: &mut Fields) -> Result<Header, ImageError>
    ensures taken { IfOk result (λ header. fields.old ≡ header_bytes header ++ fields.new) }
    ensures ranges { IfOk result (λ header. HeaderFits version header) }
    ensures judged { MatchResult result
        (λ header. body_refusal version fields.old ≡ first_refusal (lists_behind version header) fields.new)
        (λ e. IsCause e (body_refusal version fields.old)) }
{
    let stack_words = fields.stack_words(version)?;
    let code_words = fields.number_in(1, 4_194_304, 2)?;
    let table_words = fields.number_in(0, 1_048_576, 3)?;
    let places = fields.number_in(0, 524_288, 4)?;
    fields.number_in(0, 0, 5)?;
    Ok(Header {
        stack_words,
        code_words,
        table_words,
        places,
    })
}

// The fields behind the version.
fn read_body(alloc: Global, version: Version, fields: &mut Fields) -> Result<Image, ImageError>
    ensures found { IfOk result (λ image. IsBody version image fields.old) }
    ensures judged { IsJudged result (body_refusal version fields.old) }
{
    let header = read_header(version, fields)?;
    let code = fields.words(alloc, header.code_words)?;
    let table = fields.doubles(alloc, header.table_words)?;
    let places = fields.places(alloc, version, header.places, 6)?;
    fields.end()?;
    Ok(Image {
        stack_words: header.stack_words,
        code,
        table,
        places,
    })
}

// All fields.
fn read(alloc: Global, bytes: &[u8]) -> Result<Image, ImageError>
    ensures found { IfOk result (λ image. IsImageBytes image bytes.now) }
    ensures judged { IsJudged result (refusal_of bytes.now) }
{
    if bytes.len() > MOST_BYTES {
        return Err(ImageError::TooLarge);
    }
    let mut fields = Fields::new(bytes);
    fields.magic()?;
    match fields.number()? {
        1 => read_body(alloc, Version::One, &mut fields),
        2 => read_body(alloc, Version::Two, &mut fields),
        version => Err(ImageError::BadVersion(version)),
    }
}

/// The image that the bytes are.
///
/// # Errors
///
/// The first field that fails, in the order of the form: `TooLarge` before all else, then
/// `BadMagic`, `BadVersion`, `BadField`, `Truncated` for a field that the bytes don't hold whole,
/// and `Trailing` for bytes after the last field. For fewer than 8 bytes the error is `Truncated`
/// if they begin the magic, and else `BadMagic`. There is one exactly where the bytes are no
/// image's, but for `OutOfMemory`.
pub fn read_image(alloc: Global, bytes: &[u8]) -> Result<Image, ImageError>
    ensures found { IfOk result (λ image. IsImageBytes image bytes.now) }
    ensures only { (image : Image) → IsImageBytes image bytes.now
        → MatchResult result (λ read. read ≡ image) (λ e. e ≡ errors.OutOfMemory) }
    ensures judged { IsJudged result (refusal_of bytes.now) }
{
    read(alloc, bytes)
}
