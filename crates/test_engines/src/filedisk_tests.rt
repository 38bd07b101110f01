//! Each call of a disk over two files once, and one that the system refuses.
use crate::checks::{done, holds, same};
use crashdisk::{Disk, DiskError, File};
use filedisk::FileDisk;
use std::fs::{Metadata, OpenFile};
use std::io::{self, ErrorKind};
use std::os::unix::fs::FileExt;
use std::process::Abort;

/// A file of so many bytes of which none is read, and which takes what is written. Its system may refuse each change.
#[derive(Drop)]
struct Unwritten {
    length: u64,
    is_refused: bool,
}

/// What the system answers to a change.
fn change(is_refused: bool) -> io::Result<()> {
    if is_refused {
        return Err(io::Error::from(ErrorKind::StorageFull));
    }
    Ok(())
}

impl FileExt for Unwritten {
    fn read_at(&self, _buf: &mut [u8], _offset: u64) -> io::Result<usize> {
        Ok(0)
    }

    fn write_at(&self, buf: &[u8], _offset: u64) -> io::Result<usize> {
        match change(self.is_refused) {
            Ok(()) => Ok(buf.len()),
            Err(error) => Err(error),
        }
    }
}

impl OpenFile for Unwritten {
    fn metadata(&self) -> io::Result<Metadata> {
        Ok(Metadata::of_file(self.length))
    }

    fn set_len(&self, _size: u64) -> io::Result<()> {
        change(self.is_refused)
    }

    fn sync_all(&self) -> io::Result<()> {
        change(self.is_refused)
    }

    fn sync_data(&self) -> io::Result<()> {
        change(self.is_refused)
    }
}

/// A disk over a database file of 512 bytes that takes each change, and a log of 32 that takes none.
fn disk() -> FileDisk<Unwritten> {
    let db = Unwritten {
        length: 512,
        is_refused: false,
    };
    let log = Unwritten {
        length: 32,
        is_refused: true,
    };
    FileDisk::new(db, log)
}

/// Whether the system refused a call on the log for want of room.
fn has_failed(disk: &FileDisk<Unwritten>) -> bool {
    match disk.failure() {
        Some((File::Log, error)) => error.kind() == ErrorKind::StorageFull,
        _ => false,
    }
}

fn each_call<R: Abort>(rt: &R) {
    let mut disk = disk();
    let mut read = [1u8; 4];
    same(rt, (disk.sector(), disk.tears()), (4096, false));
    same(rt, disk.len(File::Db), Ok(512));
    same(rt, disk.len(File::Log), Ok(32));
    done(rt, disk.read_at(File::Log, 28, &mut read));
    same(rt, read, [0; 4]);
    done(rt, disk.write_at(File::Db, 0, &[7; 4]));
    done(rt, disk.set_len(File::Db, 1024));
    done(rt, disk.sync(File::Db));
    holds(rt, disk.failure().is_none());
}

fn a_refused_call<R: Abort>(rt: &R) {
    let mut disk = disk();
    same(
        rt,
        disk.write_at(File::Log, 0, &[7; 4]),
        Err(DiskError::Failed),
    );
    holds(rt, has_failed(&disk));
    same(rt, disk.set_len(File::Log, 0), Err(DiskError::Failed));
    same(rt, disk.sync(File::Log), Err(DiskError::Failed));
    done(rt, disk.sync(File::Db));
    holds(rt, has_failed(&disk));
}

#[test]
fn each_call_once(rt: HostRuntime) {
    each_call(&rt);
}

#[test]
fn a_call_that_the_system_refuses(rt: HostRuntime) {
    a_refused_call(&rt);
}
