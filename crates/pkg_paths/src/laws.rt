//! What holds of the files of different names.

ghost use Rattle.std.specs.Prelude.{◌≢◌, ℕ, List};
ghost use Rattle.pkg_paths.specs.Plain.{IsPlain, LacksInit};
ghost use Rattle.pkg_paths.specs.Paths.{candidates, AreApart};

/// The law of candidates: two different plain names with no part `__init__` have none in common.
pub fn apart_law()
    ensures { (base ending first second : List ℕ) → IsPlain first → IsPlain second → LacksInit first → LacksInit second
        → first ≢ second → AreApart (candidates base first ending) (candidates base second ending) }
{}
