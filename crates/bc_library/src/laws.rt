//! What holds of every library.

ghost use Rattle.std.specs.Prelude.{◌≡◌, ℕ, ◌+◌, ◌≤◌, List, length, Some, slice_get};
ghost use Rattle.mpy_base.specs.declared.limits.TheConstants.{MAX_MODULES};
ghost use Rattle.mpy_tree.specs.File.{IsModule};
ghost use Rattle.mpy_tree.specs.Raw.{Module};
ghost use Rattle.bc_verify.specs.Verified.{IsVerified};
ghost use Rattle.bc_library.specs.Shelf.{Named, module_at, table_text};
ghost use Rattle.bc_library.specs.Texts.{text_numbered};

use crate::library::Library;
use qstr_pool::{FIRST_OWN, pool_law, static_law};

/// What holds of every library: it has few entries, and a text has one number in all its modules.
pub fn library_law(lib: &Library)
    ensures few { length lib.now.modules + length lib.now.refused ≤ MAX_MODULES }
    ensures first { lib.now.pool.first ≡ FIRST_OWN }
    ensures one_number { (text : List ℕ) (m n : ℕ) → text_numbered lib.now.pool m ≡ Some text
        → text_numbered lib.now.pool n ≡ Some text → m ≡ n }
{
    static_law();
    pool_law(&lib.pool);
}

/// What holds of the modules of every library: no two have one name, each is one that a file may hold, and each is verified.
pub fn modules_law(lib: &Library)
    ensures distinct { (i k : ℕ) (a b : Named) → slice_get lib.now.modules i ≡ Some a → slice_get lib.now.modules k ≡ Some b
        → a.name ≡ b.name → i ≡ k }
    ensures files { (i : ℕ) (m : Module) → module_at lib.now i ≡ Some m → IsModule m }
    ensures verified { (i : ℕ) (m : Module) → module_at lib.now i ≡ Some m → IsVerified m }
{
    let _ = &lib.modules;
}

/// What holds of the texts of every library: each text of a module's table has a number, static or of the pool.
pub fn texts_law(lib: &Library)
    ensures { (i qstr : ℕ) (text : List ℕ) → table_text lib.now i qstr ≡ Some text
        → (n : ℕ) × (text_numbered lib.now.pool n ≡ Some text) }
{
    let _ = &lib.modules;
}
