//! A runtime whose files are on a disk in memory.

use crate::device::Device;
use mi_edges::Lockable;
use std::alloc::{Allocator, Global};
use std::cell::RefCell;
use std::fs::{Metadata, OpenFile, OpenOptions};
use std::io;
use std::io::{Cursor, ErrorKind, Read, Seek, SeekFrom, Write};
use std::rc::Rc;
use std::rt::Files;

/// The runtime, by its disk.
#[derive(Clone, Drop)]
pub struct Fake {
    device: Rc<RefCell<Device>>,
    alloc: Global,
}

/// A file of the disk that is open.
#[derive(Drop)]
pub struct FakeFile {
    device: Rc<RefCell<Device>>,
    node: usize,
    at: usize,
    appends: bool,
}

/// The names in a folder that is open.
#[derive(Drop)]
pub struct FakeFolder {
    device: Rc<RefCell<Device>>,
    names: Cursor<Vec<u8>>,
}

fn in_use() -> io::Error {
    io::Error::from(ErrorKind::Other)
}

impl Fake {
    /// The runtime of a disk.
    pub fn new(alloc: Global, device: Device) -> io::Result<Fake> {
        let device = Rc::new(alloc, RefCell::new(device))?;
        Ok(Fake { device, alloc })
    }

    /// Whether the process is stopped.
    pub fn is_stopped(&self) -> bool {
        match self.device.try_borrow() {
            Ok(device) => device.is_stopped(),
            Err(_) => false,
        }
    }

    /// The disk as it is.
    pub fn device(&self) -> io::Result<Device> {
        match self.device.try_borrow() {
            Ok(device) => Ok(device.clone()?),
            Err(_) => Err(in_use()),
        }
    }
}

impl Alloc for Fake {
    type A = Global;

    fn alloc(&self) -> Global {
        self.alloc
    }
}

impl Lockable for FakeFile {
    fn take_lock(&self) -> io::Result<()> {
        match self.device.try_borrow_mut() {
            Ok(mut device) => device.begin(),
            Err(_) => Err(in_use()),
        }
    }
}

impl Read for FakeFile {
    fn read(&mut self, piece: &mut [u8]) -> io::Result<usize> {
        let count = match self.device.try_borrow_mut() {
            Ok(mut device) => device.read(self.node, self.at, piece)?,
            Err(_) => return Err(in_use()),
        };
        self.at = self.at.saturating_add(count);
        Ok(count.min(piece.len()))
    }
}

impl Write for FakeFile {
    fn write(&mut self, bytes: &[u8]) -> io::Result<usize> {
        match self.device.try_borrow_mut() {
            Ok(mut device) => {
                if self.appends {
                    self.at = device.length(self.node);
                }
                device.write(self.node, self.at, bytes)?;
            }
            Err(_) => return Err(in_use()),
        }
        self.at = self.at.saturating_add(bytes.len());
        Ok(bytes.len())
    }

    fn flush(&mut self) -> io::Result<()> {
        Ok(())
    }
}

impl Seek for FakeFile {
    fn seek(&mut self, to: SeekFrom) -> io::Result<u64> {
        let SeekFrom::Start(at) = to else {
            return Err(io::Error::from(ErrorKind::Unsupported));
        };
        self.at = at as usize;
        Ok(at)
    }
}

impl OpenFile for FakeFile {
    fn metadata(&self) -> io::Result<Metadata> {
        Err(io::Error::from(ErrorKind::Unsupported))
    }

    fn set_len(&self, size: u64) -> io::Result<()> {
        match self.device.try_borrow_mut() {
            Ok(mut device) => device.set_length(self.node, size as usize),
            Err(_) => Err(in_use()),
        }
    }

    fn sync_all(&self) -> io::Result<()> {
        match self.device.try_borrow_mut() {
            Ok(mut device) => device.sync(self.node),
            Err(_) => Err(in_use()),
        }
    }

    fn sync_data(&self) -> io::Result<()> {
        self.sync_all()
    }
}

impl Read for FakeFolder {
    fn read(&mut self, piece: &mut [u8]) -> io::Result<usize> {
        match self.device.try_borrow_mut() {
            Ok(mut device) => device.begin()?,
            Err(_) => return Err(in_use()),
        }
        self.names.read(piece)
    }
}

impl Files for Fake {
    type File = FakeFile;

    type Dir = FakeFolder;

    fn open_file(&self, how: &OpenOptions, path: &str) -> io::Result<FakeFile> {
        how.check()?;
        let node = match self.device.try_borrow_mut() {
            Ok(mut device) => device.open(how, path)?,
            Err(_) => return Err(in_use()),
        };
        Ok(FakeFile {
            device: self.device.clone()?,
            node,
            at: 0,
            appends: how.asks_append(),
        })
    }

    fn open_dir(&self, path: &str) -> io::Result<FakeFolder> {
        let names = match self.device.try_borrow_mut() {
            Ok(mut device) => device.names(path)?,
            Err(_) => return Err(in_use()),
        };
        Ok(FakeFolder {
            device: self.device.clone()?,
            names: Cursor::new(names),
        })
    }

    fn metadata(&self, path: &str) -> io::Result<Metadata> {
        match self.device.try_borrow_mut() {
            Ok(mut device) => device.look(path),
            Err(_) => Err(in_use()),
        }
    }

    fn symlink_metadata(&self, path: &str) -> io::Result<Metadata> {
        self.metadata(path)
    }

    fn copy(&self, _from: &str, _to: &str) -> io::Result<u64> {
        Err(io::Error::from(ErrorKind::Unsupported))
    }

    fn rename(&self, from: &str, to: &str) -> io::Result<()> {
        match self.device.try_borrow_mut() {
            Ok(mut device) => device.rename(from, to),
            Err(_) => Err(in_use()),
        }
    }

    fn remove_file(&self, path: &str) -> io::Result<()> {
        match self.device.try_borrow_mut() {
            Ok(mut device) => device.remove(path),
            Err(_) => Err(in_use()),
        }
    }

    fn create_dir(&self, path: &str) -> io::Result<()> {
        match self.device.try_borrow_mut() {
            Ok(mut device) => device.make_folder(path),
            Err(_) => Err(in_use()),
        }
    }

    fn remove_dir(&self, _path: &str) -> io::Result<()> {
        Err(io::Error::from(ErrorKind::Unsupported))
    }

    fn remove_dir_all<B: Allocator>(&self, _alloc: B, _path: &str) -> io::Result<()> {
        Err(io::Error::from(ErrorKind::Unsupported))
    }
}
