//! The words by their places.

ghost use Rattle.std.specs.Prelude.{◌≡◌, [], map, string_bytes, slice_index_or};
ghost use Rattle.mpy_words.specs.Words as spec;

/// The word at a place, and the empty one where there is none.
pub fn word_at(words: &[String], at: usize) -> &str
    ensures { result.now ≡ slice_index_or (map string_bytes words.now) at [] }
{
    match words.get(at) {
        Some(word) => word.as_str(),
        None => "",
    }
}

/// The words that name files behind OUT.
pub fn file_names(words: &[String]) -> &[String]
    ensures { map string_bytes result.now ≡ spec.file_names (map string_bytes words.now) }
{
    if words.len() < 2 { &[] } else { &words[2..] }
}

/// The name that a file is to store of its source: the word at the given place, else the first name.
pub fn source_name(words: &[String], given: Option<usize>) -> &str
    ensures { result.now ≡ spec.source_name (map string_bytes words.now) given }
{
    match given {
        Some(at) => word_at(words, at),
        None => word_at(words, 1),
    }
}

/// The name of an image's main module: the word at the given place, else `main`.
pub fn main_name(words: &[String], given: Option<usize>) -> &str
    ensures { result.now ≡ spec.main_name (map string_bytes words.now) given }
{
    match given {
        Some(at) => word_at(words, at),
        None => "main",
    }
}
