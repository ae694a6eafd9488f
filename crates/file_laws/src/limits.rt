//! The limits as numbers.

ghost use Rattle.std.specs.Prelude.{◌≡◌};
ghost use Rattle.mpy_merge.specs.mpy_base.declared.limits.TheConstants.{MAX_ARGUMENTS, MAX_CALLS, MAX_CODE_BYTES, MAX_DEPTH};
ghost use Rattle.mpy_merge.specs.mpy_base.declared.limits.TheConstants.{MAX_FILE_BYTES, MAX_HANDLERS, MAX_IMAGE_BYTES, MAX_ITEMS};
ghost use Rattle.mpy_merge.specs.mpy_base.declared.limits.TheConstants.{MAX_MODULES, MAX_READ_BYTES, MAX_SOURCE_BYTES, MAX_STATE};
ghost use Rattle.mpy_merge.specs.mpy_base.declared.limits.TheConstants.{MAX_TABLE, MAX_TASKS, MAX_WALK_DEPTH, MAX_WIDE_LENGTH};
ghost use Rattle.manifest_files.specs.declared.collecting.TheConstants.{MAX_OPEN};
ghost use Rattle.library_files.specs.declared.limit.TheConstants.{MAX_LIBRARY_BYTES};
ghost use Rattle.mpy_merge.specs.declared.fault.TheConstants.{MAX_PARTS};

/// The limits of sources, files and their codes.
pub fn file_limits_law()
    ensures source_bytes { MAX_SOURCE_BYTES ≡ 1048576 }
    ensures read_bytes { MAX_READ_BYTES ≡ 16777216 }
    ensures file_bytes { MAX_FILE_BYTES ≡ 4194304 }
    ensures table { MAX_TABLE ≡ 65535 }
    ensures code_bytes { MAX_CODE_BYTES ≡ 32767 }
    ensures wide_length { MAX_WIDE_LENGTH ≡ 16000 }
    ensures depth { MAX_DEPTH ≡ 32 }
    ensures state { MAX_STATE ≡ 4096 }
    ensures handlers { MAX_HANDLERS ≡ 255 }
    ensures arguments { MAX_ARGUMENTS ≡ 255 }
    ensures items { MAX_ITEMS ≡ 4096 }
{}

/// The limits of merges, libraries, images and manifests.
pub fn library_limits_law()
    ensures parts { MAX_PARTS ≡ 1000 }
    ensures modules { MAX_MODULES ≡ 256 }
    ensures library_bytes { MAX_LIBRARY_BYTES ≡ 16777216 }
    ensures image_bytes { MAX_IMAGE_BYTES ≡ 16777216 }
    ensures open_manifests { MAX_OPEN ≡ 16 }
{}

/// The limits of runs and boards.
pub fn run_limits_law()
    ensures calls { MAX_CALLS ≡ 64 }
    ensures walk_depth { MAX_WALK_DEPTH ≡ 32 }
    ensures tasks { MAX_TASKS ≡ 16 }
{}
