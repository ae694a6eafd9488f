//! Opening an image for a run.

ghost use Rattle.std.specs.Prelude.{◌≡◌, ◌⊎◌, ℕ, None, Ok, Err, IfOk, IfErr, Some};
ghost use Rattle.image_open.specs.mpy_tree.Raw.{Module};
ghost use Rattle.image_open.specs.bc_library.Shelf.{Shelf, member_of};
ghost use Rattle.library_files.specs.Ends.{HoldsModules};
ghost use Rattle.image_open.specs.image_grammar.Base.{IsOpened};
ghost use Rattle.image_runs.specs.declared.fault.MainFault.{MainFault as Fault};
ghost use Rattle.image_runs.specs.Main.{FaultIs, HoldsMain, IsMainAt, RefusesMain};

use crate::fault::MainFault;
use bc_library::{Library, Member, modules_law};
use image_open::open_image;
use mpy_base::{NoMemory, Refused, Text};
use std::alloc::Global;

/// The fault of images without a module of this name.
fn no_main(alloc: Global, main: &[u8]) -> Refused<MainFault>
    ensures { (result ≡ Refused.Fault (Fault.NoMain main.now)) ⊎ (result ≡ Refused.NoMemory) }
{
    match Text::new(alloc, main) {
        Ok(main) => Refused::Fault(MainFault::NoMain(main)),
        Err(NoMemory) => Refused::NoMemory,
    }
}

/// Opens an image over the library below, as a library of the modules of both, and tells the number of its module of this name,
/// which may stand at any place: the main one.
pub fn image_library(
    alloc: Global,
    below: &Library,
    bytes: &[u8],
    main: &[u8],
) -> Result<(Library, u32), Refused<MainFault>>
    requires { IsOpened below.now }
    ensures found { IfOk result (λ found. HoldsMain below.now bytes.now main.now found.0 found.1) }
    ensures there { IfOk result (λ found. (m : Module) × IsMainAt main.now found.1 m found.0) }
    ensures holds { IfOk result (λ found. HoldsModules found.0) }
    ensures refused { IfErr result (FaultIs (RefusesMain below.now bytes.now main.now)) }

    // Unless memory runs out, it is found where it is there, and where it isn't, that is told.
    ensures only { (shelf : Shelf) (place : ℕ) → HoldsMain below.now bytes.now main.now shelf place
        → (result ≡ Ok (shelf, place)) ⊎ (result ≡ Err Refused.NoMemory) }
    ensures fault { (fault : Fault) → RefusesMain below.now bytes.now main.now fault
        → (result ≡ Err (Refused.Fault fault)) ⊎ (result ≡ Err Refused.NoMemory) }
{
    let library = match open_image(alloc, below, bytes) {
        Ok(library) => library,
        Err(Refused::Fault(fault)) => return Err(Refused::Fault(MainFault::Image(fault))),
        Err(Refused::NoMemory) => return Err(Refused::NoMemory),
    };
    modules_law(&library);
    match library.find(main) {
        Some(Member::Module(place)) => Ok((library, place)),
        Some(Member::Refused) => unreachable!(),
        None => Err(no_main(alloc, main)),
    }
}
