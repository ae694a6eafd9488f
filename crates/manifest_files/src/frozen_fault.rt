//! The faults of a manifest's sources and of their image.

ghost use Rattle.std.specs.Prelude.{◌≡◌};
ghost use Rattle.manifest_files.specs.FrozenFaults.{of_manifest};

use crate::fault::ManifestFault;
use image_grammar::ImageFault;
use mpy_base::{SourceFault, Text};

/// Why there are no modules of a manifest's sources: the first of the manifest's faults, and behind these of its entries'.
#[derive(Debug, Drop)]
pub enum SourcesFault {
    /// The manifest has this fault.
    Manifest(ManifestFault),
    /// The folder has no file of this name: the manifest, or the source of an entry.
    Absent(Text),
    /// The source of an entry, which has this name, isn't accepted.
    Unaccepted(Text, SourceFault),
    /// The read of the file of this name failed outside: of a manifest, or of the source of an entry.
    Unread(Text),
}

/// Why a manifest's sources have no image.
#[derive(Debug, Drop)]
pub enum FrozenFault {
    /// There are no modules of them.
    Sources(SourcesFault),
    /// Their modules have none.
    Image(ImageFault),
}

/// The fault of the manifest of this name.
pub fn of_manifest(manifest: &str, fault: ManifestFault) -> SourcesFault
    ensures { result ≡ of_manifest manifest.now fault }
{
    match fault {
        ManifestFault::Absent(name) => {
            if name.bytes() == manifest.as_bytes() {
                SourcesFault::Absent(name)
            } else {
                SourcesFault::Manifest(ManifestFault::Absent(name))
            }
        }
        ManifestFault::ReadFault(name) => SourcesFault::Unread(name),
        fault => SourcesFault::Manifest(fault),
    }
}
