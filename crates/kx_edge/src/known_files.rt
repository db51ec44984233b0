//! Which files of the system a shelf took and put: one file may have several names.

ghost use Rattle.std.specs.Prelude.{◌≡◌, ◌<◌, ◌≤◌, ◌++◌, ◌∷◌, [], length, take};
ghost use Rattle.kx_edge.specs.inner.KnownFiles.{is_known, most_files};

use std::fs::Metadata;
use std::marker::Model;
use std::os::unix::fs::MetadataExt;

/// How many files are known at most. No command names more than 21: a memory, a pool, a map, a kernel, an initrd, a
/// purgatory, notes, twelve modules and two outputs.
const MOST: usize = 32;

/// A regular file: the system tells it from all others by its device and its number there (stat(2), st_dev and st_ino).
#[derive(Clone, Copy, PartialEq, Eq)]
pub(crate) struct FileId {
    device: u64,
    number: u64,
}

impl FileId {
    /// None for what is no regular file, as a pipe or /dev/null, of which nothing can be lost; and where its number is not
    /// told.
    pub(crate) fn of(about: &Metadata) -> Option<FileId> {
        if !about.is_file() || about.ino() == 0 {
            return None;
        }
        Some(FileId {
            device: about.dev(),
            number: about.ino(),
        })
    }
}

// What the table has where no file stands yet.
const NO_FILE: FileId = FileId {
    device: 0,
    number: 0,
};

/// The regular files that were taken and put, in a table of its own: a put takes no memory. A file for which there is no
/// place is not known. Contracts see the files in the order in which they were added.
#[derive(Drop)]
pub(crate) struct KnownFiles {
    files: [FileId; MOST],
    count: usize,
}

impl Model for KnownFiles {
    ghost use Rattle.std.specs.Prelude.{List, ◌≤◌, take};
    ghost use Rattle.kx_edge.specs.declared.known_files.FileId.{FileId};

    ghost Value = { List FileId };

    ghost view = { λ k. take k.count k.files };

    ghost invariant = { λ k. k.count ≤ 32 };
}

impl KnownFiles {
    pub(crate) fn new() -> KnownFiles
        ensures { result ≡ [] }
    {
        KnownFiles {
            files: [NO_FILE; MOST],
            count: 0,
        }
    }

    /// Whether the file is one of those that were added.
    pub(crate) fn contains(&self, id: FileId) -> bool
        ensures { result ≡ is_known self.now id }
    {
        self.files[..self.count].contains(&id)
    }

    /// Adds the file behind the others, where there is a place.
    pub(crate) fn add(&mut self, id: FileId)
        ensures added { length self.old < most_files → self.new ≡ self.old ++ id ∷ [] }
        ensures full { most_files ≤ length self.old → self.new ≡ self.old }
    {
        if self.count < MOST {
            self.files[self.count] = id;
            self.count += 1;
        }
    }
}
