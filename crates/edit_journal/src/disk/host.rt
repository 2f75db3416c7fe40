//! A real disk: the trusted edge. It tells nothing of its bytes.

ghost use Rattle.std.specs.Prelude.{◌≡◌, false, [], ⊤, IfOk, refl};
ghost use Rattle.plain_io.specs.Loads.{Loads, Untold};

use super::Disk;
use plain_io::{Failed, LoadFail};
use std::alloc::Global;
use std::fs::File;
use std::io;
use std::io::ErrorKind;
use std::os::unix::fs::FileExt;
use tgap_model::Text;

/// How many bytes of a file are read at once.
const PIECE: usize = 8192;

/// The most bytes that an append may have left in doubt: the longest batch, and what stands beside it.
const LAST_BYTES: u64 = 1_048_590;

/// An open file. After a sync that failed each of its calls fails: the system may then count bytes as stored that are not, and
/// neither a read nor a later sync tells of it.
#[derive(Drop)]
pub struct HostDisk {
    file: File,
    faults: u64,
    dead: bool,
}

impl HostDisk {
    /// A disk over this file. The file's last bytes are written over themselves and made sure, since an earlier program may have
    /// left them other than a read gives them; and the folder is made sure, which has the file's name.
    pub fn settled(file: File, folder: &File) -> io::Result<Self>
        ensures { IfOk result (λ disk. ⟦<HostDisk as Disk>⟧.faults disk ≡ 0) }
    {
        let len = file.metadata()?.len();
        rewrite(&file, len.saturating_sub(LAST_BYTES), len)?;
        file.sync_all()?;
        folder.sync_all()?;
        Ok(HostDisk {
            file,
            faults: 0,
            dead: false,
        })
    }
}

impl Disk for HostDisk {
    ghost told = { λ disk. false };

    ghost seen = { λ disk. [] };

    ghost may_leave = { λ disk image. ⊤ };

    ghost moment = { λ disk. 0 };

    ghost left_since = { λ disk start image. ⊤ };

    ghost faults = { λ disk. disk.faults };

    fn read(&mut self, alloc: Global, max: u64) -> Result<Text, LoadFail> {
        let text = match self.dead {
            true => Err(LoadFail::Failed),
            false => read_file(alloc, &self.file, max),
        };
        if let Err(LoadFail::Failed) = text {
            self.faults = self.faults.saturating_add(1);
        }
        text
    }

    fn write_at(&mut self, at: u64, bytes: &[u8]) -> Result<(), Failed> {
        if self.dead || self.file.write_all_at(bytes, at).is_err() {
            self.faults = self.faults.saturating_add(1);
            return Err(Failed);
        }
        Ok(())
    }

    fn sync(&mut self) -> Result<(), Failed> {
        if self.dead || self.file.sync_all().is_err() {
            self.dead = true;
            self.faults = self.faults.saturating_add(1);
            return Err(Failed);
        }
        Ok(())
    }

    fn faults(&self) -> u64 {
        self.faults
    }

    ghost told_alike = { λ one other. refl };

    ghost seen_is_left = { λ disk told. tt };

    ghost counts_now = { λ disk start image le left. tt };

    ghost only_now = { λ disk image left. tt };
}

/// The bytes of a file, at most `max` of them.
fn read_file(alloc: Global, file: &File, max: u64) -> Result<Text, LoadFail>
    ensures { Loads Untold max result }
{
    let mut text = Text::new(alloc);
    let mut piece = [0u8; PIECE];
    for _ in 0..u64::MAX {
        let count = match file.read_at(&mut piece, text.len() as u64) {
            Ok(0) => return Ok(text),
            Ok(count) => count,
            Err(error) if error.kind() == ErrorKind::Interrupted => continue,
            Err(_) => return Err(LoadFail::Failed),
        };
        if count as u64 > max - text.len() as u64 {
            return Err(LoadFail::TooLong { max });
        }
        text.push_slice(&piece[..count])
            .map_err(|_| LoadFail::Memory)?;
    }
    Err(LoadFail::Failed)
}

/// Writes the bytes of a file between two places over themselves.
fn rewrite(file: &File, from: u64, to: u64) -> io::Result<()> {
    let mut piece = [0u8; PIECE];
    let mut at = from;
    for _ in 0..u64::MAX {
        if at >= to {
            return Ok(());
        }
        let count = file.read_at(&mut piece, at)?;
        if count == 0 {
            return Ok(());
        }
        file.write_all_at(&piece[..count], at)?;
        at = at.saturating_add(count as u64);
    }
    Ok(())
}
