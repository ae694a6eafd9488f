//! What is said of a file that is cut off, or that has bytes behind it.

ghost use Rattle.std.specs.Prelude.{◌≢◌, ◌++◌, ◌<◌, ◌≤◌, List, [], ℕ, length};
ghost use Rattle.mpy_writer.specs.mpy_tree.Raw.{Module};
ghost use Rattle.mpy_writer.specs.mpy_tree.File.{IsFile};
ghost use Rattle.image_open.specs.mpy_reader.declared.fault.FileFault.TheVariants.{BadHeader, Truncated, Trailing, TooBig};
ghost use Rattle.image_open.specs.mpy_reader.Reading.{FirstFault};

/// A file that is cut off is no file: below four bytes its header is wrong, and else it is truncated, wherever it was cut.
pub fn cut_law()
    ensures header { (front behind : List ℕ) (m : Module) → IsFile (front ++ behind) m → behind ≢ [] → length front < 4
        → FirstFault front BadHeader }
    ensures truncated { (front behind : List ℕ) (m : Module) → IsFile (front ++ behind) m → behind ≢ [] → 4 ≤ length front
        → FirstFault front Truncated }
{}

/// A file with bytes behind it is no file either: it has too many bytes, or some that are no part of it.
pub fn suffix_law()
    ensures trailing { (bytes suffix : List ℕ) (m : Module) → IsFile bytes m → suffix ≢ [] → length (bytes ++ suffix) ≤ 4194304
        → FirstFault (bytes ++ suffix) Trailing }
    ensures too_big { (bytes suffix : List ℕ) (m : Module) → IsFile bytes m → 4194304 < length (bytes ++ suffix)
        → FirstFault (bytes ++ suffix) TooBig }
{}
