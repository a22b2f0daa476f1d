ghost use Rattle.std.specs.Prelude.{◌≤◌, length, IfOk, OnOk};
ghost use Rattle.std.specs.Io.KnownBytes.{Appends};

use arrayvec::ArrayString;
use std::alloc::Global;
use std::fmt::Write as _;
use std::fs::{File, OpenFile, OpenOptions, Permissions};
use std::io::{Read, Write};
use std::rt::Files;
use std::{fs, io};

/// The longest path that the system takes, in bytes.
const PATH_LIMIT: usize = 4096;

/// How many names are tried for a new file.
const NAMES_TRIED: u8 = 100;

/// A path of a few bytes more than another one.
type LongPath = ArrayString<PATH_LIMIT>;

/// A file that was not there before, and its path.
#[derive(Drop)]
struct NewFile<F> {
    file: F,
    path: LongPath,
}

/// All bytes of a file. Of one above the limit it takes one byte more than the limit, and then refuses it.
pub fn read_file<R: Files>(rt: &R, alloc: Global, path: &str, limit: u64) -> io::Result<Vec<u8>>
    ensures { IfOk result (λ bytes. length bytes.items ≤ limit) }
{
    let mut bytes = Vec::new(alloc);
    fs::open(rt, path)?
        .take(limit.saturating_add(1))
        .read_to_end(&mut bytes)?;
    if bytes.len() as u64 > limit {
        return Err(io::Error::from(io::ErrorKind::FileTooLarge));
    }
    Ok(bytes)
}

/// Writes a regular file whole or not at all, and anything else in place. A file that may not be written is refused.
pub fn write_file<R: Files>(rt: &R, path: &str, bytes: &[u8]) -> io::Result<()> {
    match fs::symlink_metadata(rt, path) {
        Ok(found) if found.is_file() => {
            let _writable = OpenOptions::new().write(true).open(rt, path)?;
            replace(rt, path, bytes, Some(found.permissions()))
        }
        Ok(_) => fs::write(rt, path, bytes),
        Err(error) if error.kind() == io::ErrorKind::NotFound => replace(rt, path, bytes, None),
        Err(error) => Err(error),
    }
}

/// Writes a new file beside the path, which then takes the path's name. Where that fails the new file is removed.
fn replace<R: Files>(
    rt: &R,
    path: &str,
    bytes: &[u8],
    permissions: Option<Permissions>,
) -> io::Result<()> {
    let NewFile {
        mut file,
        path: beside,
    } = create_beside(rt, path)?;
    let outcome = match fill(&mut file, bytes, permissions) {
        Ok(()) => fs::rename(rt, beside.as_str(), path),
        Err(error) => Err(error),
    };
    if outcome.is_err() {
        let _ = fs::remove_file(rt, beside.as_str());
    }
    outcome
}

/// Creates a file that isn't there, in the folder of this path.
fn create_beside<R: Files>(rt: &R, path: &str) -> io::Result<NewFile<R::File>> {
    for number in 0..NAMES_TRIED {
        let Some(path) = path_beside(path, number) else {
            return Err(io::Error::from(io::ErrorKind::InvalidInput));
        };
        match File::create_new(rt, path.as_str()) {
            Ok(file) => return Ok(NewFile { file, path }),
            Err(error) if error.kind() == io::ErrorKind::AlreadyExists => {}
            Err(error) => return Err(error),
        }
    }
    Err(io::Error::from(io::ErrorKind::AlreadyExists))
}

/// A path in the same folder; None where it would be too long. It takes no memory.
fn path_beside(path: &str, number: u8) -> Option<LongPath> {
    let mut beside = LongPath::new();
    beside.try_push_str(path).ok()?;
    write!(beside, ".new-{number}").ok()?;
    Some(beside)
}

/// Writes a new file, and waits until the system keeps its bytes. Ok means that a file which tells its bytes has taken all
/// of these, in order.
fn fill<F: Write + OpenFile + Drop>(
    file: &mut F,
    bytes: &[u8],
    permissions: Option<Permissions>,
) -> io::Result<()>
    ensures { OnOk result (Appends (F.contents file.old) (F.contents file.new) bytes.now) }
{
    if let Some(permissions) = permissions {
        file.set_permissions(permissions)?;
    }
    file.write_all(bytes)?;
    file.sync_all()
}

#[cfg(test)]
mod tests {
    use super::*;
    use std::process;
    use std::test::Fail;

    #[test]
    fn reads_a_file_up_to_its_limit(rt: HostRuntime) -> Result<(), Fail> {
        let process = process::id(rt.process());
        let path = format!(in rt.alloc(); "/tmp/kdbsim-io_edge-limit-{process}")?;
        fs::write(&rt, path.as_str(), "ten bytes.")?;
        let whole = read_file(&rt, rt.alloc(), path.as_str(), 10);
        let over = read_file(&rt, rt.alloc(), path.as_str(), 9);
        fs::remove_file(&rt, path.as_str())?;
        assert_eq!(rt; whole?.as_slice(), b"ten bytes.".as_slice());
        assert_eq!(rt;
            over.err().map(|error| error.kind()),
            Some(io::ErrorKind::FileTooLarge)
        );
        Ok(())
    }

    #[test]
    fn writes_a_device_in_place(rt: HostRuntime) -> Result<(), Fail> {
        write_file(&rt, "/dev/null", b"some bytes")?;
        assert!(rt; !fs::symlink_metadata(&rt, "/dev/null")?.is_file());
        assert!(rt; write_file(&rt, "/dev/full", b"some bytes").is_err());
        Ok(())
    }

    #[test]
    fn a_file_takes_a_path_that_is_free(rt: HostRuntime) -> Result<(), Fail> {
        let process = process::id(rt.process());
        let path = format!(in rt.alloc(); "/tmp/kdbsim-io_edge-beside-{process}")?;
        let taken = format!(in rt.alloc(); "{path}.new-0")?;
        let next = format!(in rt.alloc(); "{path}.new-1")?;
        fs::write(&rt, taken.as_str(), "another's")?;
        write_file(&rt, path.as_str(), b"some bytes")?;
        let written = fs::read(&rt, path.as_str())?;
        let kept = fs::read(&rt, taken.as_str())?;
        fs::remove_file(&rt, path.as_str())?;
        fs::remove_file(&rt, taken.as_str())?;
        assert_eq!(rt; written.as_slice(), b"some bytes".as_slice());
        assert_eq!(rt; kept.as_slice(), b"another's".as_slice());
        assert!(rt; !fs::exists(&rt, next.as_str())?);
        Ok(())
    }
}
