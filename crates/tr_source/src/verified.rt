//! A translation is verified, and a source has one translation at most.

ghost use Rattle.std.specs.Prelude.{◌≡◌, List, ◌∷◌};
ghost use Rattle.emit_measures.specs.bc_scheme.mpy_tree.Resolved.{ResolvedModule};
ghost use Rattle.emit_measures.specs.bc_scheme.py_meaning.Program.{Source};
ghost use Rattle.emit_measures.specs.bc_scheme.py_meaning.Tree.{Block};
ghost use Rattle.emit_measures.specs.bc_scheme.py_meaning.Numbers.{numbers_in};
ghost use Rattle.emit_measures.specs.bc_scheme.Translation.{own, Translates};
ghost use Rattle.tr_source.specs.Limits.{SourceLimited};
ghost use Rattle.tr_source.specs.Numbered.{SourceNumbered};
ghost use Rattle.emit_measures.specs.bc_scheme.Merge.{merge_of};
ghost use Rattle.bc_resolved.specs.Verified.{IsVerifiedTree, AllVerifiedTrees};

/// A translation of a source that keeps the limits is verified.
pub fn verified_law()
    ensures { (source : Source) (m : ResolvedModule) → Translates source m → SourceLimited source → IsVerifiedTree m }
{}

/// A source that keeps the limits has one translation at most.
pub fn unique_law()
    ensures { (source : Source) (m n : ResolvedModule) → Translates source m → Translates source n
        → SourceLimited source → SourceNumbered source → m ≡ n }
{}

/// The merge of verified modules is verified.
pub fn merge_law()
    ensures { (m : ResolvedModule) (ms : List ResolvedModule) → AllVerifiedTrees (m ∷ ms) → IsVerifiedTree (merge_of m ms) }
{}

/// A translation makes the functions that a text itself defines, by their numbers.
pub fn own_law()
    ensures { (body : Block) → own body ≡ numbers_in body }
{}
