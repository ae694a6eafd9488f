//! Libraries.

ghost use Rattle.std.specs.Prelude.{◌≡◌, ◌↔◌, ℕ, ◌^◌, ◌<◌, ◌≤◌, List, [], ◌∷◌, ◌++◌, length, All, Ok, Err, None, Some, IsSome};
ghost use Rattle.std.specs.Prelude.{IsTrue, IfNone, IfOk, IfSome, IfErr, OnOk, OnErr, IsErrOf, position, map, option_copied};
ghost use Rattle.std.specs.Prelude.{option_and_then, slice_get};
ghost use Rattle.std.specs.List.{list_any};
ghost use Rattle.std.specs.Option.{option_map};
ghost use Rattle.std.specs.Str.{bytes_eq};
ghost use Rattle.mpy_base.specs.declared.refused.Refused.TheVariants as refused;
ghost use Rattle.bc_verify.specs.qstr_pool.Full.{pool_full};
ghost use Rattle.bc_library.specs.Added.{IsBrought};
ghost use Rattle.bc_library.specs.Constants.{constants_of, object_value};
ghost use Rattle.bc_library.specs.Greatest.{IsGreatestIn, ShelfHas};
ghost use Rattle.bc_library.specs.Kept.{OneHas};
ghost use Rattle.bc_library.specs.Own.{IsOwnPool};
ghost use Rattle.bc_library.specs.Shelf.{IsFull, Named, fault_of, member_of, entry_at, module_at, no_entries, table_text, with_module, with_refused};
ghost use Rattle.bc_library.specs.Texts.{AreNumbers, IsPlain, IsTitle, texts_of, text_numbered, with_texts, Extends};

use crate::fault::{LibFault, Member};
use crate::greatest::greatest_in;
use crate::parts::{Part, add_objects};
use crate::texts::{Title, take_name, take_table};
use arena_heap::Value;
use bc_verify::{RawModule, Verified, module_law, verified_law};
use mpy_base::limits::{MAX_DEPTH, MAX_MODULES, MAX_TABLE};
use mpy_base::{Items, NoMemory, Refused, Text};
use qstr_pool::{FIRST_OWN, Full, Pool, pool_law, static_law};
use std::alloc::{AllocFailed, Global};
use std::marker::Model;

/// A module as a library has it.
#[derive(Drop)]
pub(crate) struct Loaded {
    pub name: Text,
    pub title: Title,
    pub module: Verified,
    /// The numbers of the texts of its table.
    pub numbers: Vec<u32>,
    /// The values of its objects.
    pub values: Items<Value>,
    /// Its constants in preorder.
    pub parts: Vec<Part>,
}

/// Verified modules by name, with one pool for their texts, and names whose files were refused.
#[derive(Drop)]
pub struct Library {
    pub(crate) modules: Vec<Loaded>,
    refused: Items<Text>,
    pub(crate) pool: Pool,
}

impl Model for Library {
    ghost use Rattle.std.specs.Coded.{codes};
    ghost use Rattle.mpy_tree.specs.contracts.module.Constant as constants;
    ghost use Rattle.mpy_tree.specs.contracts.raw.RawCode as raw_codes;
    ghost use Rattle.bc_library.specs.Own.{IsOwnPool};
    ghost use Rattle.bc_library.specs.Shelf.{Shelf};

    ghost Value = { Shelf };

    ghost coded = { Prim.hlevel (codes, constants.the_row.coded, raw_codes.the_row.coded) };

    ghost use Rattle.bc_library.specs.Kept.{IsLibrary, shelf_of};

    ghost view = { λ a. shelf_of a.modules.items a.refused a.pool };

    ghost invariant = { λ a. IsLibrary a.modules.items a.refused a.pool };
}

/// What a library keeps beside a module that it takes.
struct Brought {
    name: Text,
    title: Title,
    numbers: Vec<u32>,
    values: Items<Value>,
    parts: Vec<Part>,
}

/// The place of the first module with the name.
fn place_of(modules: &[Loaded], name: &[u8]) -> Option<usize>
    ensures place { result ≡ position (λ l. bytes_eq name.now l.name) modules.now }
    ensures within { IfSome result (λ place. place < length modules.now) }
{
    modules.iter().position(|l| name == l.name.bytes())
}

/// Whether the name is among these.
fn is_among(names: &[Text], name: &[u8]) -> bool
    ensures { result ≡ list_any (bytes_eq name.now) names.now }
{
    names.iter().any(|other| name == other.bytes())
}

/// The module at the place `i`.
pub(crate) fn loaded_at(modules: &[Loaded], i: u32) -> Option<&Loaded>
    ensures { option_copied result ≡ slice_get modules.now i }
{
    modules.get(i as usize)
}

fn number_at(numbers: &[u32], qstr: u32) -> Option<u32>
    ensures { result ≡ slice_get numbers.now qstr }
{
    numbers.get(qstr as usize).copied()
}

/// Puts the texts of a module behind those of the pool, and gives the numbers of its name and of its table. After a refusal
/// some of the texts may be there.
fn numbered(
    alloc: Global,
    pool: &mut Pool,
    name: &[u8],
    raw: &RawModule,
) -> Result<(Title, Vec<u32>), Refused<Full>>
    requires { pool.old.first ≡ FIRST_OWN }
    ensures pool { OnOk result (pool.new ≡ with_texts pool.old (texts_of name.now raw.now)) }
    ensures title { IfOk result (λ r. IsTitle pool.new name.now r.0) }
    ensures numbers { IfOk result (λ r. AreNumbers pool.new r.1.items raw.now.qstrs) }
    ensures fits { OnOk result (length pool.new.texts ≤ MAX_TABLE) }
    ensures full { result ≡ Err (refused.Fault pool_full)
        → MAX_TABLE < length (with_texts pool.old (texts_of name.now raw.now)).texts }
    ensures err { OnErr result (Extends pool.old pool.new) }
{
    module_law(raw);
    let title = take_name(alloc, pool, name)?;
    let numbers = take_table(alloc, pool, raw.qstrs())?;
    pool_law(pool);
    Ok((title, numbers))
}

/// What a library keeps beside the module, which gets the number, and whose texts go into the pool. After a refusal some of
/// the texts may be there.
fn brought_by(
    alloc: Global,
    pool: &mut Pool,
    number: u32,
    name: &[u8],
    raw: &RawModule,
) -> Result<Brought, Refused<LibFault>>
    requires own { IsOwnPool pool.old }
    requires plain { IsPlain name.now }
    ensures brought { IfOk result (λ k. IsBrought pool.old number name.now raw.now pool.new k) }
    ensures fits { OnOk result (length (with_texts pool.old (texts_of name.now raw.now)).texts ≤ MAX_TABLE) }
    ensures names { (f : LibFault) → result ≡ Err (refused.Fault f) → (f ≡ LibFault.Names)
        × (MAX_TABLE < length (with_texts pool.old (texts_of name.now raw.now)).texts) }
    ensures err { OnErr result (Extends pool.old pool.new) }
{
    module_law(raw);
    static_law();
    let (title, numbers) = match numbered(alloc, pool, name, raw) {
        Ok(numbered) => numbered,
        Err(Refused::Fault(Full)) => return Err(Refused::Fault(LibFault::Names)),
        Err(Refused::NoMemory) => return Err(Refused::NoMemory),
    };
    let mut parts = Vec::new(alloc);
    let values = add_objects(alloc, &mut parts, number, raw.objects(), MAX_DEPTH)?;
    let name = Text::new(alloc, name)?;
    Ok(Brought {
        name,
        title,
        numbers,
        values,
        parts,
    })
}

/// Puts a module behind the others, or hands it back.
fn put(modules: &mut Vec<Loaded>, loaded: Loaded) -> Result<(), Verified>
    ensures ok { OnOk result (modules.new.items ≡ modules.old.items ++ loaded ∷ []) }
    ensures err { OnErr result (modules.new.items ≡ modules.old.items) }
    ensures back { IfErr result (λ m. m ≡ loaded.«module») }
{
    match modules.push(loaded) {
        Ok(()) => Ok(()),
        Err(failed) => {
            let AllocFailed { value } = failed;
            let Loaded {
                name: _,
                title: _,
                module,
                numbers: _,
                values: _,
                parts: _,
            } = value;
            Err(module)
        }
    }
}

/// The greatest n_state and n_exc of the codes of these modules.
fn greatest_of(modules: &[Loaded]) -> (u32, u32)
    ensures { IsGreatestIn (OneHas modules.now) result.0 result.1 }
{
    let mut state = 0u32;
    let mut exc = 0u32;
    for loaded in modules {
        let raw = loaded.module.module();
        module_law(raw);
        let (module_state, module_exc) = greatest_in(raw.code(), MAX_DEPTH);
        state = state.max(module_state);
        exc = exc.max(module_exc);
    }
    (state, exc)
}

impl Library {
    /// A library of no entries.
    pub fn new(alloc: Global) -> Result<Library, NoMemory>
        ensures { IfOk result (λ lib. lib ≡ no_entries) }
    {
        Ok(Library {
            modules: Vec::new(alloc),
            refused: Items::new(alloc),
            pool: Pool::new(alloc, FIRST_OWN)?,
        })
    }

    /// What the name leads to.
    pub fn find(&self, name: &[u8]) -> Option<Member>
        ensures { result ≡ member_of self.now name.now }
    {
        match place_of(&self.modules, name) {
            Some(place) => Some(Member::Module(place as u32)),
            None => {
                if is_among(self.refused.as_slice(), name) {
                    Some(Member::Refused)
                } else {
                    None
                }
            }
        }
    }

    /// Whether no further entry goes in.
    fn is_full(&self) -> bool
        ensures { IsTrue result ↔ IsFull self.now }
    {
        self.modules.len() + self.refused.len() >= MAX_MODULES
    }

    /// Why no entry of the name goes in, before its texts are looked at.
    fn refusal(&self, name: &[u8]) -> Option<LibFault>
        ensures twice { result ≡ Some LibFault.Twice ↔ IsSome (member_of self.now name.now) }
        ensures too_many { result ≡ Some LibFault.TooMany ↔ ((member_of self.now name.now ≡ None) × IsFull self.now) }
        ensures others { result ≡ Some LibFault.Names → ⊥ }
        ensures none { IfNone result ((member_of self.now name.now ≡ None) × (¬ IsFull self.now)) }
    {
        if self.find(name).is_some() {
            return Some(LibFault::Twice);
        }
        if self.is_full() {
            return Some(LibFault::TooMany);
        }
        None
    }

    /// Adds a module behind the others, or hands it back. It gets the next number.
    pub fn add(
        &mut self,
        alloc: Global,
        name: &[u8],
        verified: Verified,
    ) -> Result<(), (Refused<LibFault>, Verified)>
        requires short { length name.now < 2 ^ 31 }
        requires ascii { All (λ byte. byte < 128) name.now }
        ensures added { OnOk result (self.new ≡ with_module self.old name.now verified) }

        // Of several faults the first in this order is told.
        ensures twice { fault_of result ≡ Some LibFault.Twice ↔ IsSome (member_of self.old name.now) }
        ensures too_many { fault_of result ≡ Some LibFault.TooMany
            ↔ ((member_of self.old name.now ≡ None) × IsFull self.old) }
        ensures names { fault_of result ≡ Some LibFault.Names → (member_of self.old name.now ≡ None) × (¬ IsFull self.old)
            × (MAX_TABLE < length (with_module self.old name.now verified).pool.texts) }
        ensures fits { OnOk result (length (with_module self.old name.now verified).pool.texts ≤ MAX_TABLE) }
        ensures back { IfErr result (λ e. e.1 ≡ verified) }
        ensures err { OnErr result (self.new ≡ self.old) }
    {
        if let Some(fault) = self.refusal(name) {
            return Err((Refused::Fault(fault), verified));
        }
        verified_law(&verified);
        let number = self.modules.len() as u32;
        let held = self.pool.len();
        match brought_by(alloc, &mut self.pool, number, name, verified.module()) {
            Err(refused) => {
                self.pool.truncate(held);
                Err((refused, verified))
            }
            Ok(brought) => {
                let Brought {
                    name,
                    title,
                    numbers,
                    values,
                    parts,
                } = brought;
                let loaded = Loaded {
                    name,
                    title,
                    module: verified,
                    numbers,
                    values,
                    parts,
                };
                match put(&mut self.modules, loaded) {
                    Ok(()) => Ok(()),
                    Err(verified) => {
                        self.pool.truncate(held);
                        Err((Refused::NoMemory, verified))
                    }
                }
            }
        }
    }

    /// Adds a name whose file was refused. It takes no number of a module and no number of a text.
    pub fn add_refused(&mut self, alloc: Global, name: &[u8]) -> Result<(), Refused<LibFault>>
        requires short { length name.now < 2 ^ 31 }
        requires ascii { All (λ byte. byte < 128) name.now }
        ensures added { OnOk result (self.new ≡ with_refused self.old name.now) }
        ensures twice { IsErrOf result (refused.Fault LibFault.Twice) ↔ IsSome (member_of self.old name.now) }
        ensures too_many { IsErrOf result (refused.Fault LibFault.TooMany)
            ↔ ((member_of self.old name.now ≡ None) × IsFull self.old) }
        ensures never_names { IsErrOf result (refused.Fault LibFault.Names) → ⊥ }
        ensures err { OnErr result (self.new ≡ self.old) }
    {
        if let Some(fault) = self.refusal(name) {
            return Err(Refused::Fault(fault));
        }
        let name = Text::new(alloc, name)?;
        self.refused.push(name)?;
        Ok(())
    }

    /// The module of the number.
    pub fn module(&self, i: u32) -> Option<&Verified>
        ensures { option_copied result ≡ module_at self.now i }
    {
        let loaded = self.modules.get(i as usize)?;
        Some(&loaded.module)
    }

    /// The numbers of the texts of a module's name and of its last part.
    pub fn title(&self, module_number: u32) -> Option<Title>
        ensures is { IfSome result (λ title. (n : Named) → slice_get self.now.modules module_number ≡ Some n → IsTitle self.now.pool n.name title) }
        ensures some { IsSome result ↔ IsSome (slice_get self.now.modules module_number) }
    {
        let loaded = loaded_at(&self.modules, module_number)?;
        Some(loaded.title)
    }

    /// The number of a text of the module's table, static or of the pool.
    pub fn text_number(&self, module_number: u32, qstr: u32) -> Option<u32>
        ensures text { IfSome result (λ n. text_numbered self.now.pool n ≡ table_text self.now module_number qstr) }
        ensures some { IsSome result ↔ IsSome (entry_at self.now module_number qstr) }
    {
        let loaded = loaded_at(&self.modules, module_number)?;
        number_at(&loaded.numbers, qstr)
    }

    /// The value of an object of the module's table.
    pub fn object(&self, module_number: u32, number: u32) -> Option<Value>
        ensures { result ≡ object_value self.now module_number number }
    {
        let loaded = self.modules.get(module_number as usize)?;
        loaded.values.get(number as usize).copied()
    }

    /// How many constants the module has: its objects, and the items of their tuples.
    pub fn constant_count(&self, module_number: u32) -> Option<usize>
        ensures { result ≡ option_map (λ m. length (constants_of m)) (module_at self.now module_number) }
    {
        match loaded_at(&self.modules, module_number) {
            Some(loaded) => Some(loaded.parts.len()),
            None => None,
        }
    }

    /// The greatest n_state and n_exc of all codes, 0 where there are none.
    pub fn greatest(&self) -> (u32, u32)
        ensures { IsGreatestIn (ShelfHas self.now) result.0 result.1 }
    {
        greatest_of(&self.modules)
    }
}
