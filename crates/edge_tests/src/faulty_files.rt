//! Files that fail in mid-file, or after it, for tests.

ghost use Rattle.std.specs.Prelude.{◌≤◌, IfOk};

use std::alloc::Allocator;
use std::fs::{Metadata, OpenFile, OpenOptions};
use std::io::{self, Empty, ErrorKind, Read, Seek, SeekFrom, Write};
use std::rt::Files;

/// An input or output error, as Linux numbers it (errno-base.h): what a broken disk answers.
pub(crate) const EIO: i32 = 5;

/// Files of which each gives or takes so many bytes, and then fails; and whether what was written is kept.
#[derive(Drop)]
pub(crate) struct FaultyFiles {
    pub(crate) sound: usize,
    pub(crate) settles: bool,
}

/// A file of which so many bytes are left before it fails.
#[derive(Drop)]
pub(crate) struct FaultyFile {
    left: usize,
    settles: bool,
}

impl FaultyFile {
    // How many bytes the next transfer of so many moves.
    fn transfer(&mut self, wanted: usize) -> io::Result<usize>
        ensures { IfOk result (λ n. n ≤ wanted) }
    {
        if self.left == 0 {
            return Err(io::Error::from_raw_os_error(EIO));
        }
        let count = self.left.min(wanted);
        self.left -= count;
        Ok(count)
    }
}

impl Read for FaultyFile {
    fn read(&mut self, buf: &mut [u8]) -> io::Result<usize> {
        self.transfer(buf.len())
    }
}

impl Write for FaultyFile {
    fn write(&mut self, buf: &[u8]) -> io::Result<usize> {
        self.transfer(buf.len())
    }

    fn flush(&mut self) -> io::Result<()> {
        Ok(())
    }
}

impl Seek for FaultyFile {
    fn seek(&mut self, _to: SeekFrom) -> io::Result<u64> {
        Err(io::Error::from(ErrorKind::Unsupported))
    }
}

impl OpenFile for FaultyFile {
    fn metadata(&self) -> io::Result<Metadata> {
        Ok(Metadata::of_file(0))
    }

    fn set_len(&self, _size: u64) -> io::Result<()> {
        Err(io::Error::from(ErrorKind::Unsupported))
    }

    fn sync_all(&self) -> io::Result<()> {
        if self.settles {
            Ok(())
        } else {
            Err(io::Error::from_raw_os_error(EIO))
        }
    }

    fn sync_data(&self) -> io::Result<()> {
        Err(io::Error::from(ErrorKind::Unsupported))
    }
}

impl Files for FaultyFiles {
    type File = FaultyFile;

    type Dir = Empty;

    fn open_file(&self, _how: &OpenOptions, _path: &str) -> io::Result<FaultyFile> {
        Ok(FaultyFile {
            left: self.sound,
            settles: self.settles,
        })
    }

    fn open_dir(&self, _path: &str) -> io::Result<Empty> {
        Ok(io::empty())
    }

    fn metadata(&self, _path: &str) -> io::Result<Metadata> {
        Err(io::Error::from(ErrorKind::Unsupported))
    }

    fn symlink_metadata(&self, _path: &str) -> io::Result<Metadata> {
        Err(io::Error::from(ErrorKind::Unsupported))
    }

    fn copy(&self, _from: &str, _to: &str) -> io::Result<u64> {
        Err(io::Error::from(ErrorKind::Unsupported))
    }

    fn rename(&self, _from: &str, _to: &str) -> io::Result<()> {
        Err(io::Error::from(ErrorKind::Unsupported))
    }

    fn remove_file(&self, _path: &str) -> io::Result<()> {
        Err(io::Error::from(ErrorKind::Unsupported))
    }

    fn create_dir(&self, _path: &str) -> io::Result<()> {
        Err(io::Error::from(ErrorKind::Unsupported))
    }

    fn remove_dir(&self, _path: &str) -> io::Result<()> {
        Err(io::Error::from(ErrorKind::Unsupported))
    }

    fn remove_dir_all<B: Allocator>(&self, _alloc: B, _path: &str) -> io::Result<()> {
        Err(io::Error::from(ErrorKind::Unsupported))
    }
}
