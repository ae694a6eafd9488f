//! What is said of images and manifests.

ghost use Rattle.std.specs.Prelude.{◌≡◌};
ghost use Rattle.mpy_endings.specs.Line as spec;
ghost use Rattle.mpy_endings.specs.Line.{Puts, frozen_line, image_line, main_line, manifest_line, modules_line, sources_line};

use crate::line::say_fault;
use crate::put::{
    put, put_head, put_index, put_last_index, put_last_word, put_named, put_numbered, put_word,
};
use image_runs::MainFault;
use manifest_files::{FrozenFault, ImageFault, ManifestFault, SourcesFault};
use mpy_io::{Failed, Sink};

/// The module name that the fault of an image tells.
fn image_word(fault: &ImageFault) -> &[u8]
    ensures { result.now ≡ spec.image_word fault.now }
{
    match fault.word() {
        Some(word) => word,
        None => b"",
    }
}

/// Says why the bytes of this name are no image.
fn say_image<E: Sink>(say: &mut E, name: &str, fault: &ImageFault) -> Result<(), Failed>
    ensures { Puts (E.told say.old) (E.told say.new) (E.count say.old) (E.count say.new) (image_line name.now fault.now) result }
{
    put_head(say, name, b": image ")?;
    put_numbered(say, fault.number(), fault.name())?;
    put_index(say, fault.index())?;
    put_last_word(say, image_word(fault))
}

/// Says why modules have no image.
fn say_modules<E: Sink>(say: &mut E, fault: &ImageFault) -> Result<(), Failed>
    ensures { Puts (E.told say.old) (E.told say.new) (E.count say.old) (E.count say.new) (modules_line fault.now) result }
{
    put(say, b"mpy: image ")?;
    put_numbered(say, fault.number(), fault.name())?;
    put_index(say, fault.index())?;
    put_last_word(say, image_word(fault))
}

/// The name that the fault of a manifest tells.
fn manifest_word(fault: &ManifestFault) -> &[u8]
    ensures { result.now ≡ spec.manifest_word fault.now }
{
    match fault {
        ManifestFault::BadCall(name, _) => name.bytes(),
        ManifestFault::Loop(name) => name.bytes(),
        ManifestFault::Twice(name) => name.bytes(),
        ManifestFault::Absent(name) => name.bytes(),
        ManifestFault::Required(name) => name.bytes(),
        ManifestFault::Deep(name) => name.bytes(),
        ManifestFault::TooMany => b"",
        ManifestFault::ReadFault(name) => name.bytes(),
    }
}

/// The number of the line that it tells.
fn manifest_number(fault: &ManifestFault) -> Option<u32>
    ensures { result ≡ spec.manifest_number fault.now }
{
    match fault {
        ManifestFault::BadCall(_, line) => Some(*line),
        _ => None,
    }
}

/// Says the fault of the manifest of this name, the first one.
fn say_manifest<E: Sink>(say: &mut E, name: &str, fault: &ManifestFault) -> Result<(), Failed>
    ensures { Puts (E.told say.old) (E.told say.new) (E.count say.old) (E.count say.new) (manifest_line name.now fault.now) result }
{
    put_head(say, name, b": manifest ")?;
    put_numbered(say, fault.number(), fault.name())?;
    put_word(say, manifest_word(fault))?;
    put_last_index(say, manifest_number(fault))
}

/// Says why the image of this name has no main module.
pub(crate) fn say_main<E: Sink>(say: &mut E, name: &str, fault: &MainFault) -> Result<(), Failed>
    ensures { Puts (E.told say.old) (E.told say.new) (E.count say.old) (E.count say.new) (main_line name.now fault.now) result }
{
    match fault {
        MainFault::Image(fault) => say_image(say, name, fault),
        MainFault::NoMain(main) => put_named(say, b"mpy: absent", main.bytes()),
    }
}

/// Says why there are no modules of the sources of the manifest of this name.
fn say_sources<E: Sink>(say: &mut E, name: &str, fault: &SourcesFault) -> Result<(), Failed>
    ensures { Puts (E.told say.old) (E.told say.new) (E.count say.old) (E.count say.new) (sources_line name.now fault.now) result }
{
    match fault {
        SourcesFault::Manifest(fault) => say_manifest(say, name, fault),
        SourcesFault::Absent(path) => put_named(say, b"mpy: absent", path.bytes()),
        SourcesFault::Unaccepted(path, fault) => say_fault(say, path.bytes(), fault),
        SourcesFault::Unread(path) => put_named(say, b"mpy: read fault", path.bytes()),
    }
}

/// Says why there is no image of them.
pub(crate) fn say_frozen<E: Sink>(
    say: &mut E,
    name: &str,
    fault: &FrozenFault,
) -> Result<(), Failed>
    ensures { Puts (E.told say.old) (E.told say.new) (E.count say.old) (E.count say.new) (frozen_line name.now fault.now) result }
{
    match fault {
        FrozenFault::Sources(fault) => say_sources(say, name, fault),
        FrozenFault::Image(fault) => say_modules(say, fault),
    }
}
