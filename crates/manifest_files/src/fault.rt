//! Why the entries of a manifest aren't collected.

ghost use Rattle.std.specs.Prelude.{◌≡◌};
ghost use Rattle.manifest_files.specs.Faults.{number_of, name_of};

use mpy_base::Text;

/// Why the entries of a manifest aren't collected: the first that is met in the order of reading.
#[derive(Debug, Drop)]
pub enum ManifestFault {
    /// In this manifest, the line of this number is no call that a manifest may make.
    BadCall(Text, u32),
    /// This manifest is included while it is open.
    Loop(Text),
    /// A second entry has this module.
    Twice(Text),
    /// The folder has no manifest of this name.
    Absent(Text),
    /// A package of this name is required, and can't be had.
    Required(Text),
    /// This manifest would be open within too many others.
    Deep(Text),
    /// There are more entries than modules in a library.
    TooMany,
    /// The read of this manifest failed outside.
    ReadFault(Text),
}

impl ManifestFault {
    /// The number by which a line names the fault.
    pub fn number(&self) -> u8
        ensures { result ≡ number_of self.now }
    {
        match self {
            ManifestFault::BadCall(_, _) => 1,
            ManifestFault::Loop(_) => 2,
            ManifestFault::Twice(_) => 3,
            ManifestFault::Absent(_) => 4,
            ManifestFault::Required(_) => 5,
            ManifestFault::Deep(_) => 6,
            ManifestFault::TooMany => 7,
            ManifestFault::ReadFault(_) => 8,
        }
    }

    /// The name by which a line names the fault.
    pub fn name(&self) -> &'static str
        ensures { result.now ≡ name_of self.now }
    {
        match self {
            ManifestFault::BadCall(_, _) => "BadCall",
            ManifestFault::Loop(_) => "Loop",
            ManifestFault::Twice(_) => "Twice",
            ManifestFault::Absent(_) => "Absent",
            ManifestFault::Required(_) => "Required",
            ManifestFault::Deep(_) => "Deep",
            ManifestFault::TooMany => "TooMany",
            ManifestFault::ReadFault(_) => "ReadFault",
        }
    }
}
