//! What is said of an image that is cut off, or that has bytes behind it.

ghost use Rattle.std.specs.Prelude.{◌≢◌, ◌++◌, ◌<◌, ◌≤◌, All, List, [], ℕ, length};
ghost use Rattle.image_open.specs.mpy_base.declared.limits.TheConstants.{MAX_IMAGE_BYTES};
ghost use Rattle.image_open.specs.bc_verify.Verified.{IsVerified};
ghost use Rattle.image_open.specs.image_grammar.declared.entry.Entry.{Entry};
ghost use Rattle.image_open.specs.image_grammar.declared.fault.ImageFault.TheVariants.{BadHeader, TooBig, Trailing, Truncated};
ghost use Rattle.image_open.specs.image_grammar.Image.{IsImage};
ghost use Rattle.image_open.specs.image_grammar.Opening.{Base, FirstFault, nothing_below};
ghost use Rattle.file_laws.specs.Sound.{IsSound};

/// An image of version 1 or 2 of verified modules that is cut off is none: below four bytes its header is wrong, and else it
/// is truncated, wherever it was cut. It may lie over nothing, or over what a library has.
pub fn cut_image()
    ensures nothing { IsSound nothing_below }
    ensures header { (below : Base) (entries : List Entry) (front behind : List ℕ) → IsSound below
        → IsImage below entries (front ++ behind) → length front < 4 → FirstFault below front BadHeader }
    ensures truncated { (below : Base) (entries : List Entry) (front behind : List ℕ) → IsSound below
        → IsImage below entries (front ++ behind) → All (λ entry. IsVerified entry.held) entries → behind ≢ []
        → 4 ≤ length front → FirstFault below front Truncated }
{}

/// An image of version 1 or 2 of verified modules with bytes behind it is none: it has too many bytes, or some that are no part of it.
pub fn image_with_suffix()
    ensures trailing { (below : Base) (entries : List Entry) (bytes suffix : List ℕ) → IsSound below → IsImage below entries bytes
        → All (λ entry. IsVerified entry.held) entries → suffix ≢ [] → length (bytes ++ suffix) ≤ MAX_IMAGE_BYTES
        → FirstFault below (bytes ++ suffix) Trailing }
    ensures too_big { (below : Base) (bytes : List ℕ) → MAX_IMAGE_BYTES < length bytes → FirstFault below bytes TooBig }
{}
