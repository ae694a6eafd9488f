//! The names that every file may give by number.

ghost use Rattle.std.specs.Prelude.{◌≡◌};
ghost use Rattle.mpy_merge.specs.qstr_pool.Static.{static_texts};
ghost use Rattle.file_laws.specs.Names.{known_names};

/// The table of names has those that are written out, in their order.
pub fn names_law()
    ensures { static_texts ≡ known_names }
{}
