//! Loading the library of a main file.

ghost use Rattle.std.specs.Prelude.{◌≡◌, ◌≢◌, ℕ, ◌^◌, ◌<◌, [], ◌++◌, length, None, IfOk, IfSome, OnOk, IsUtf8, reverse};
ghost use Rattle.mpy_base.specs.declared.refused.Refused.TheVariants as refusals;
ghost use Rattle.mpy_io.specs.Count.{Counts};
ghost use Rattle.pkg_paths.specs.Plain.{IsPlain};
ghost use Rattle.bc_library.specs.Shelf.{member_of};
ghost use Rattle.library_files.specs.declared.entry.Entry.TheVariants as entries;
ghost use Rattle.library_files.specs.Asked.{asked_for};
ghost use Rattle.library_files.specs.Comes.{NameComesTo};
ghost use Rattle.library_files.specs.Ends.{BeginsWith, EndsIn, FailsAmong, FailsInBase, HoldsModules, is_failed};
ghost use Rattle.library_files.specs.Loads.{Loads, LoadsFrom, LoadsWith};
ghost use Rattle.library_files.specs.Steps.{AddsImports, AddsModules, AreAsked, AreKnownAbsent, AreModules, AreShort, Asks};
ghost use Rattle.library_files.specs.Steps.{AsksAll, AsksFound, BeginsBy, IsNothing, LimitComesTo, LoadsLeft, Remembers, Step};
ghost use Rattle.library_files.specs.Steps.{Takes};

use crate::asked::asked_names;
use crate::entry::Entry;
use crate::imports::add_names;
use crate::limit::{Limit, LoadFault, MAX_LIBRARY_BYTES};
use crate::module_files::ModuleFiles;
use crate::reader::Reader;
use crate::search::entry_of;
use bc_library::{LibFault, Library, Verified, modules_law};
use mpy_base::{NoMemory, Refused, Text};
use mpy_io::Folder;
use mpy_tree::module_law;
use qstr_pool::Pool;
use std::alloc::Global;

/// A library that is being loaded, how many bytes the files of its modules have together, and the names that were absent.
#[derive(Drop)]
struct Begun {
    library: Library,
    size: usize,
    absent: Pool,
}

/// Why nothing is loaded where a library doesn't take an entry of a name that wasn't there.
fn limit_fault(refused: Refused<LibFault>) -> Refused<LoadFault>
    requires { refused ≢ refusals.Fault LibFault.Twice }
    ensures { LimitComesTo refused result }
{
    match refused {
        Refused::Fault(LibFault::Twice) => unreachable!(),
        Refused::Fault(LibFault::TooMany) => Refused::Fault(LoadFault::Past(Limit::TooMany)),
        Refused::Fault(LibFault::Names) => Refused::Fault(LoadFault::Past(Limit::Names)),
        Refused::NoMemory => Refused::NoMemory,
    }
}

/// Adds a module whose file has `bytes` bytes.
fn add_module(
    alloc: Global,
    begun: &mut Begun,
    name: &[u8],
    verified: Verified,
    bytes: usize,
) -> Result<(), Refused<LoadFault>>
    requires name_is { IsPlain name.now }
    requires short { length name.now < 2 ^ 31 }
    requires fresh { member_of begun.old.library name.now ≡ None }
    ensures takes { Takes begun.old begun.new name.now (entries.Held verified bytes) result }
    ensures absent { begun.new.absent ≡ begun.old.absent }
{
    match begun.library.add(alloc, name, verified) {
        Ok(()) => {
            let size = begun.size.saturating_add(bytes);
            if size > MAX_LIBRARY_BYTES {
                return Err(Refused::Fault(LoadFault::Past(Limit::TooMany)));
            }
            begun.size = size;
            Ok(())
        }
        Err((refused, _)) => Err(limit_fault(refused)),
    }
}

/// Adds a name whose file was refused.
fn add_refused(alloc: Global, begun: &mut Begun, name: &[u8]) -> Result<(), Refused<LoadFault>>
    requires name_is { IsPlain name.now }
    requires short { length name.now < 2 ^ 31 }
    requires fresh { member_of begun.old.library name.now ≡ None }
    ensures takes { Takes begun.old begun.new name.now entries.Refused result }
    ensures absent { begun.new.absent ≡ begun.old.absent }
{
    match begun.library.add_refused(alloc, name) {
        Ok(()) => Ok(()),
        Err(refused) => Err(limit_fault(refused)),
    }
}

/// Remembers that no file has the name, as long as there is room for one more such name.
fn take_absent(alloc: Global, begun: &mut Begun, name: &[u8]) -> Result<(), Refused<LoadFault>>
    ensures takes { Takes begun.old begun.new name.now entries.Absent result }
    ensures remembers { OnOk result (Remembers begun.old.absent begun.new.absent name.now entries.Absent) }
    ensures same { begun.new.library ≡ begun.old.library }
{
    match begun.absent.intern(alloc, name) {
        Ok(_) => Ok(()),
        Err(Refused::Fault(_)) => Ok(()),
        Err(Refused::NoMemory) => Err(Refused::NoMemory),
    }
}

/// Adds a module, and puts the names that it imports behind those that are there.
fn take_module(
    alloc: Global,
    begun: &mut Begun,
    name: &[u8],
    verified: Verified,
    bytes: usize,
    found: &mut Vec<Text>,
) -> Result<(), Refused<LoadFault>>
    requires name_is { IsPlain name.now }
    requires short { length name.now < 2 ^ 31 }
    requires fresh { member_of begun.old.library name.now ≡ None }
    ensures takes { Takes begun.old begun.new name.now (entries.Held verified bytes) result }
    ensures imports { OnOk result (AddsImports (entries.Held verified bytes) found.old.items found.new.items) }
    ensures step { OnOk result (Step begun.old.library begun.new.library found.old.items found.new.items) }
    ensures absent { begun.new.absent ≡ begun.old.absent }
{
    let raw = verified.module();
    module_law(raw);
    match add_names(alloc, raw, found) {
        Ok(()) => add_module(alloc, begun, name, verified, bytes),
        Err(NoMemory) => Err(Refused::NoMemory),
    }
}

/// Takes an entry of a name, if there is one.
fn take_entry(
    alloc: Global,
    begun: &mut Begun,
    name: &[u8],
    entry: Entry,
    found: &mut Vec<Text>,
) -> Result<(), Refused<LoadFault>>
    requires name_is { IsPlain name.now }
    requires short { length name.now < 2 ^ 31 }
    requires fresh { member_of begun.old.library name.now ≡ None }
    ensures takes { Takes begun.old begun.new name.now entry result }
    ensures imports { OnOk result (AddsImports entry found.old.items found.new.items) }
    ensures step { OnOk result (Step begun.old.library begun.new.library found.old.items found.new.items) }
    ensures remembers { OnOk result (Remembers begun.old.absent begun.new.absent name.now entry) }
{
    match entry {
        Entry::Absent => take_absent(alloc, begun, name),
        Entry::Refused => add_refused(alloc, begun, name),
        Entry::Held(verified, bytes) => take_module(alloc, begun, name, verified, bytes, found),
    }
}

/// Reads the file of a name that the library doesn't have, and that isn't known to be absent.
fn read_asked<R: Reader, F: Folder>(
    alloc: Global,
    reader: &R,
    folder: &mut F,
    base: &[u8],
    name: &[u8],
    begun: &mut Begun,
    found: &mut Vec<Text>,
) -> Result<(), Refused<LoadFault>>
    requires base_is { IsUtf8 base.now }
    requires name_is { IsPlain name.now }
    requires short { length name.now < 2 ^ 31 }
    requires fresh { member_of begun.old.library name.now ≡ None }
    requires absent { AreKnownAbsent (NameComesTo (R.ending reader.now) (R.comes reader.now) base.now) (F.files folder.old) begun.old.absent.texts }
    ensures loads { IfSome (F.files folder.old)
        (λ files. Asks (NameComesTo (R.ending reader.now) (R.comes reader.now) base.now files) begun.old begun.new name.now found.old.items
        found.new.items result) }
    ensures step { OnOk result (Step begun.old.library begun.new.library found.old.items found.new.items) }
    ensures absent { OnOk result
        (AreKnownAbsent (NameComesTo (R.ending reader.now) (R.comes reader.now) base.now) (F.files folder.new) begun.new.absent.texts) }
    ensures same { F.files folder.new ≡ F.files folder.old }
    ensures at { FailsAmong (R.ending reader.now) (R.comes reader.now) base.now result }
    ensures cause { Counts (F.count folder.old) (F.count folder.new) (is_failed result) }
{
    match entry_of(alloc, reader, folder, base, name) {
        Ok(entry) => take_entry(alloc, begun, name, entry, found),
        Err(refused) => Err(refused),
    }
}

/// Asks for a name that the library doesn't have: its file is read unless it is known to be absent.
fn ask_unknown<R: Reader, F: Folder>(
    alloc: Global,
    reader: &R,
    folder: &mut F,
    base: &[u8],
    name: &[u8],
    begun: &mut Begun,
    found: &mut Vec<Text>,
) -> Result<(), Refused<LoadFault>>
    requires base_is { IsUtf8 base.now }
    requires name_is { IsPlain name.now }
    requires short { length name.now < 2 ^ 31 }
    requires fresh { member_of begun.old.library name.now ≡ None }
    requires absent { AreKnownAbsent (NameComesTo (R.ending reader.now) (R.comes reader.now) base.now) (F.files folder.old) begun.old.absent.texts }
    ensures loads { IfSome (F.files folder.old)
        (λ files. Asks (NameComesTo (R.ending reader.now) (R.comes reader.now) base.now files) begun.old begun.new name.now found.old.items
        found.new.items result) }
    ensures step { OnOk result (Step begun.old.library begun.new.library found.old.items found.new.items) }
    ensures absent { OnOk result
        (AreKnownAbsent (NameComesTo (R.ending reader.now) (R.comes reader.now) base.now) (F.files folder.new) begun.new.absent.texts) }
    ensures same { F.files folder.new ≡ F.files folder.old }
    ensures at { FailsAmong (R.ending reader.now) (R.comes reader.now) base.now result }
    ensures cause { Counts (F.count folder.old) (F.count folder.new) (is_failed result) }
{
    match begun.absent.find(name) {
        Some(_) => Ok(()),
        None => read_asked(alloc, reader, folder, base, name, begun, found),
    }
}

/// Asks for a name: its file is read unless the library has it, or it is known to be absent.
fn ask<R: Reader, F: Folder>(
    alloc: Global,
    reader: &R,
    folder: &mut F,
    base: &[u8],
    name: &[u8],
    begun: &mut Begun,
    found: &mut Vec<Text>,
) -> Result<(), Refused<LoadFault>>
    requires base_is { IsUtf8 base.now }
    requires name_is { IsPlain name.now }
    requires short { length name.now < 2 ^ 31 }
    requires absent { AreKnownAbsent (NameComesTo (R.ending reader.now) (R.comes reader.now) base.now) (F.files folder.old) begun.old.absent.texts }
    ensures loads { IfSome (F.files folder.old)
        (λ files. Asks (NameComesTo (R.ending reader.now) (R.comes reader.now) base.now files) begun.old begun.new name.now found.old.items
        found.new.items result) }
    ensures step { OnOk result (Step begun.old.library begun.new.library found.old.items found.new.items) }
    ensures absent { OnOk result
        (AreKnownAbsent (NameComesTo (R.ending reader.now) (R.comes reader.now) base.now) (F.files folder.new) begun.new.absent.texts) }
    ensures same { F.files folder.new ≡ F.files folder.old }
    ensures at { FailsAmong (R.ending reader.now) (R.comes reader.now) base.now result }
    ensures cause { Counts (F.count folder.old) (F.count folder.new) (is_failed result) }
{
    match begun.library.find(name) {
        Some(_) => Ok(()),
        None => ask_unknown(alloc, reader, folder, base, name, begun, found),
    }
}

/// Asks for names one after another.
fn ask_all<R: Reader, F: Folder>(
    alloc: Global,
    reader: &R,
    folder: &mut F,
    base: &[u8],
    names: &[Text],
    begun: &mut Begun,
    found: &mut Vec<Text>,
) -> Result<(), Refused<LoadFault>>
    requires base_is { IsUtf8 base.now }
    requires names_are { AreAsked names.now }
    requires absent { AreKnownAbsent (NameComesTo (R.ending reader.now) (R.comes reader.now) base.now) (F.files folder.old) begun.old.absent.texts }
    ensures loads { IfSome (F.files folder.old)
        (λ files. AsksAll (NameComesTo (R.ending reader.now) (R.comes reader.now) base.now files) begun.old begun.new names.now
        found.old.items found.new.items result) }
    ensures step { OnOk result (Step begun.old.library begun.new.library found.old.items found.new.items) }
    ensures absent { OnOk result
        (AreKnownAbsent (NameComesTo (R.ending reader.now) (R.comes reader.now) base.now) (F.files folder.new) begun.new.absent.texts) }
    ensures same { F.files folder.new ≡ F.files folder.old }
    ensures at { FailsAmong (R.ending reader.now) (R.comes reader.now) base.now result }
    ensures cause { Counts (F.count folder.old) (F.count folder.new) (is_failed result) }
{
    for asked in names {
        match ask(alloc, reader, folder, base, asked.bytes(), begun, found) {
            Ok(()) => {}
            Err(refused) => return Err(refused),
        }
    }
    Ok(())
}

/// Asks for names one after another, and gives the names that the modules found there import.
fn ask_found<R: Reader, F: Folder>(
    alloc: Global,
    reader: &R,
    folder: &mut F,
    base: &[u8],
    names: &[Text],
    begun: &mut Begun,
) -> Result<Vec<Text>, Refused<LoadFault>>
    requires base_is { IsUtf8 base.now }
    requires names_are { AreAsked names.now }
    requires absent { AreKnownAbsent (NameComesTo (R.ending reader.now) (R.comes reader.now) base.now) (F.files folder.old) begun.old.absent.texts }
    ensures loads { IfSome (F.files folder.old)
        (λ files. AsksFound (NameComesTo (R.ending reader.now) (R.comes reader.now) base.now files) begun.old begun.new names.now result) }
    ensures step { IfOk result (λ found. Step begun.old.library begun.new.library [] found.items) }
    ensures absent { OnOk result
        (AreKnownAbsent (NameComesTo (R.ending reader.now) (R.comes reader.now) base.now) (F.files folder.new) begun.new.absent.texts) }
    ensures same { F.files folder.new ≡ F.files folder.old }
    ensures at { FailsAmong (R.ending reader.now) (R.comes reader.now) base.now result }
    ensures cause { Counts (F.count folder.old) (F.count folder.new) (is_failed result) }
{
    let mut found = Vec::new(alloc);
    match ask_all(alloc, reader, folder, base, names, begun, &mut found) {
        Ok(()) => Ok(found),
        Err(refused) => Err(refused),
    }
}

/// Asks for the names that an import asks for, and gives the names that the modules found there import.
fn import<R: Reader, F: Folder>(
    alloc: Global,
    reader: &R,
    folder: &mut F,
    base: &[u8],
    name: &[u8],
    begun: &mut Begun,
) -> Result<Vec<Text>, Refused<LoadFault>>
    requires base_is { IsUtf8 base.now }
    requires short { length name.now < 2 ^ 31 }
    requires absent { AreKnownAbsent (NameComesTo (R.ending reader.now) (R.comes reader.now) base.now) (F.files folder.old) begun.old.absent.texts }
    ensures loads { IfSome (F.files folder.old)
        (λ files. AsksFound (NameComesTo (R.ending reader.now) (R.comes reader.now) base.now files) begun.old begun.new (asked_for name.now) result) }
    ensures step { IfOk result (λ found. Step begun.old.library begun.new.library [] found.items) }
    ensures absent { OnOk result
        (AreKnownAbsent (NameComesTo (R.ending reader.now) (R.comes reader.now) base.now) (F.files folder.new) begun.new.absent.texts) }
    ensures same { F.files folder.new ≡ F.files folder.old }
    ensures at { FailsAmong (R.ending reader.now) (R.comes reader.now) base.now result }
    ensures cause { Counts (F.count folder.old) (F.count folder.new) (is_failed result) }
{
    match asked_names(alloc, name) {
        Ok(names) => ask_found(alloc, reader, folder, base, &names, begun),
        Err(NoMemory) => Err(Refused::NoMemory),
    }
}

/// Puts names in front of those that are left, which stand from the last to the first.
fn put_in_front(mut names: Vec<Text>, left: &mut Vec<Text>) -> Result<(), NoMemory>
    ensures { OnOk result (left.new.items ≡ left.old.items ++ reverse names.items) }
{
    names.reverse();
    left.append(&mut names)?;
    Ok(())
}

/// Loads what the imports that are left ask for. They stand from the last to the first.
fn load_left<R: Reader, F: Folder>(
    alloc: Global,
    reader: &R,
    folder: &mut F,
    base: &[u8],
    mut left: Vec<Text>,
    begun: &mut Begun,
) -> Result<(), Refused<LoadFault>>
    requires base_is { IsUtf8 base.now }
    requires short { AreShort left.items }
    requires absent { AreKnownAbsent (NameComesTo (R.ending reader.now) (R.comes reader.now) base.now) (F.files folder.old) begun.old.absent.texts }
    ensures loads { IfSome (F.files folder.old)
        (λ files. LoadsLeft (NameComesTo (R.ending reader.now) (R.comes reader.now) base.now files) begun.old begun.new
        (reverse left.items) result) }
    ensures adds { OnOk result (AddsModules begun.old.library begun.new.library) }
    ensures absent { OnOk result
        (AreKnownAbsent (NameComesTo (R.ending reader.now) (R.comes reader.now) base.now) (F.files folder.new) begun.new.absent.texts) }
    ensures same { F.files folder.new ≡ F.files folder.old }
    ensures at { FailsAmong (R.ending reader.now) (R.comes reader.now) base.now result }
    ensures cause { Counts (F.count folder.old) (F.count folder.new) (is_failed result) }
{
    while let Some(name) = left.pop() {
        match import(alloc, reader, folder, base, name.bytes(), begun) {
            Err(refused) => return Err(refused),
            Ok(found) => match put_in_front(found, &mut left) {
                Err(NoMemory) => return Err(Refused::NoMemory),
                Ok(()) => {}
            },
        }
    }
    Ok(())
}

/// The names from the last to the first.
fn reversed(mut found: Vec<Text>) -> Vec<Text>
    ensures { result.items ≡ reverse found.items }
{
    found.reverse();
    found
}

/// No module is loaded yet, and no name was absent.
fn nothing(alloc: Global) -> Result<Begun, NoMemory>
    ensures { IfOk result IsNothing }
{
    let library = Library::new(alloc)?;
    let absent = Pool::new(alloc, 0)?;
    Ok(Begun {
        library,
        size: 0,
        absent,
    })
}

/// Puts the main module into the library, and gives the names that it imports, from the last to the first.
fn take_main(
    alloc: Global,
    mut begun: Begun,
    main: Verified,
    size: usize,
) -> Result<(Begun, Vec<Text>), Refused<LoadFault>>
    requires { IsNothing begun }
    ensures { BeginsBy main size result }
{
    module_law(main.module());
    let mut imports = Vec::new(alloc);
    match take_module(alloc, &mut begun, b"__main__", main, size, &mut imports) {
        Ok(()) => Ok((begun, reversed(imports))),
        Err(refused) => Err(refused),
    }
}

/// The library of the main module alone, and the names that it imports, from the last to the first.
fn begin(
    alloc: Global,
    main: Verified,
    size: usize,
) -> Result<(Begun, Vec<Text>), Refused<LoadFault>>
    ensures { BeginsBy main size result }
{
    match nothing(alloc) {
        Ok(begun) => take_main(alloc, begun, main, size),
        Err(NoMemory) => Err(Refused::NoMemory),
    }
}

/// Loads what the imports that are left ask for, and gives the library. They stand from the last to the first.
fn load_all<R: Reader, F: Folder>(
    alloc: Global,
    reader: &R,
    folder: &mut F,
    base: &[u8],
    mut begun: Begun,
    left: Vec<Text>,
) -> Result<Library, Refused<LoadFault>>
    requires base_is { IsUtf8 base.now }
    requires short { AreShort left.items }
    requires held { AreModules begun.library.modules }
    requires absent { AreKnownAbsent (NameComesTo (R.ending reader.now) (R.comes reader.now) base.now) (F.files folder.old) begun.absent.texts }
    ensures loaded { IfSome (F.files folder.old)
        (λ files. EndsIn (Loads (NameComesTo (R.ending reader.now) (R.comes reader.now) base.now files) begun.library begun.size []
        (reverse left.items) []) result) }
    ensures adds { IfOk result (AddsModules begun.library) }
    ensures holds { IfOk result HoldsModules }
    ensures same { F.files folder.new ≡ F.files folder.old }
    ensures at { FailsAmong (R.ending reader.now) (R.comes reader.now) base.now result }
    ensures cause { Counts (F.count folder.old) (F.count folder.new) (is_failed result) }
{
    match load_left(alloc, reader, folder, base, left, &mut begun) {
        Ok(()) => {
            let Begun {
                library,
                size: _,
                absent: _,
            } = begun;
            modules_law(&library);
            Ok(library)
        }
        Err(refused) => Err(refused),
    }
}

/// Loads the library of a main module, whose file has `size` bytes, from the files of a folder as the reader reads them.
/// The base folder stands in front of their names as it is: with its `/`, or empty. Each name that is asked for takes two
/// reads at most, and is read once, also where no file has it: up to 65,535 absent names are remembered.
pub fn load_by<R: Reader, F: Folder>(
    alloc: Global,
    reader: &R,
    folder: &mut F,
    base: &[u8],
    main: Verified,
    size: usize,
) -> Result<Library, Refused<LoadFault>>
    requires base_is { IsUtf8 base.now }
    ensures loaded { IfSome (F.files folder.old)
        (λ files. EndsIn (LoadsWith (NameComesTo (R.ending reader.now) (R.comes reader.now) base.now files) main size) result) }
    ensures main_first { IfOk result (BeginsWith main) }
    ensures holds { IfOk result HoldsModules }
    ensures same { F.files folder.new ≡ F.files folder.old }
    ensures at { FailsAmong (R.ending reader.now) (R.comes reader.now) base.now result }
    ensures cause { Counts (F.count folder.old) (F.count folder.new) (is_failed result) }
{
    match begin(alloc, main, size) {
        Ok((begun, imports)) => load_all(alloc, reader, folder, base, begun, imports),
        Err(refused) => Err(refused),
    }
}

/// Loads the library of a main module, whose file has `size` bytes, from the files of modules in a folder.
pub fn load<F: Folder>(
    alloc: Global,
    folder: &mut F,
    base: &[u8],
    main: Verified,
    size: usize,
) -> Result<Library, Refused<LoadFault>>
    requires base_is { IsUtf8 base.now }
    ensures loaded { IfSome (F.files folder.old) (λ files. EndsIn (LoadsFrom files base.now main size) result) }
    ensures main_first { IfOk result (BeginsWith main) }
    ensures holds { IfOk result HoldsModules }
    ensures same { F.files folder.new ≡ F.files folder.old }
    ensures at { FailsInBase base.now result }
    ensures cause { Counts (F.count folder.old) (F.count folder.new) (is_failed result) }
{
    load_by(alloc, &ModuleFiles, folder, base, main, size)
}
