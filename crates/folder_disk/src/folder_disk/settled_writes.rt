// Writes once all files of the folder are made sure of: what changes nothing is not done.
ghost use Rattle.std.specs.Prelude.{◌≡◌, true};
ghost use Rattle.folder_disk.specs.Holding.{IsHeld};

use super::FolderDisk;
use crate::failures::Failure;
use crate::files;
use crate::files::FileRead;
use crate::known_files::Known;
use desk_ports::FileName;
use std::fs::File;
use std::rt::{Clock, Files};

impl<R: Files<File = File> + Clock + AllocGlobal + Clone + Drop> FolderDisk<R> {
    // What a file is read to hold is durable where all files were made sure of. It is not relied on once a call failed:
    // the machine may have dropped what it could not write, and say so once alone.
    pub(super) fn note_read(&mut self, name: &FileName, read: &FileRead)
        requires settled { self.old.is_settled ≡ true }
        requires unfailed { self.old.faults ≡ 0 }
        ensures count { self.new.faults ≡ self.old.faults }
        ensures settled { self.new.is_settled ≡ true }
    {
        let known = Known {
            mark: read.mark,
            digest: Some(self.digests.of(&read.bytes)),
        };
        self.known.note(name.as_slice(), known);
    }

    // Has the file whose path is set hold these bytes: by nothing where it holds them, by a link where its backup does,
    // or the file that it is a backup of, and else by writing.
    pub(super) fn write_settled(&mut self, name: &FileName, bytes: &[u8]) -> Result<(), Failure>
        requires held { IsHeld self.old.held }
        requires settled { self.old.is_settled ≡ true }
        ensures count { self.new.faults ≡ self.old.faults }
        ensures settled { self.new.is_settled ≡ true }
    {
        if let Some(known) = self.known_as(name.as_slice(), self.path.as_str(), bytes) {
            self.note_unchanged(name, known, bytes);
            return Ok(());
        }
        self.known.forget(name.as_slice());
        if let Some(known) = self.link_partner(name, bytes) {
            self.known.note(name.as_slice(), known);
            return Ok(());
        }
        if let Some(mark) = self.write_anew(bytes)? {
            self.known
                .note(name.as_slice(), Known { mark, digest: None });
        }
        Ok(())
    }

    // A file that stays as it is may stay so for long: what its bytes come to is reckoned once. Of one that changes
    // each time it never is.
    fn note_unchanged(&mut self, name: &FileName, known: Known, bytes: &[u8])
        requires settled { self.old.is_settled ≡ true }
        ensures count { self.new.faults ≡ self.old.faults }
        ensures settled { self.new.is_settled ≡ true }
    {
        if known.digest.is_some() {
            return;
        }
        let known = Known {
            mark: known.mark,
            digest: Some(self.digests.of(bytes)),
        };
        self.known.note(name.as_slice(), known);
    }

    // What is known of the file of this name and path, where it has these bytes, and stands there unchanged.
    fn known_as(&self, name: &[u8], path: &str, bytes: &[u8]) -> Option<Known>
        requires held { IsHeld self.now.held }
        requires settled { self.now.is_settled ≡ true }
    {
        let known = self.known.of(name)?;
        if known.mark.length() == bytes.len() as u64 && self.stands_as(path, &known, bytes) {
            Some(known)
        } else {
            None
        }
    }

    fn stands_as(&self, path: &str, known: &Known, bytes: &[u8]) -> bool
        requires held { IsHeld self.now.held }
        requires settled { self.now.is_settled ≡ true }
    {
        match &known.digest {
            Some(digest) => {
                *digest == self.digests.of(bytes) && files::stands(&self.rt, path, &known.mark)
            }
            None => files::holds(&self.rt, path, &known.mark, bytes),
        }
    }

    // Makes the path that is set one more name of its partner, where that has these bytes. What is known of that, where
    // it is done.
    fn link_partner(&mut self, name: &FileName, bytes: &[u8]) -> Option<Known>
        requires held { IsHeld self.old.held }
        requires settled { self.old.is_settled ≡ true }
        ensures kept { self.new ≡ record self.old { partner = self.new.partner } }
    {
        if !self
            .partner
            .set_partner(self.folder.as_str(), name.as_slice())
        {
            return None;
        }
        let known = self.known_partner(bytes)?;
        if files::link(&self.rt, self.partner.as_str(), self.path.as_str()) {
            Some(known)
        } else {
            None
        }
    }

    // What is known of the partner whose path is set, where it has these bytes, and stands there unchanged.
    fn known_partner(&self, bytes: &[u8]) -> Option<Known>
        requires held { IsHeld self.now.held }
        requires settled { self.now.is_settled ≡ true }
    {
        self.known_as(self.partner_name()?, self.partner.as_str(), bytes)
    }

    // The name behind the folder in the partner's path.
    fn partner_name(&self) -> Option<&[u8]> {
        let path = self.partner.as_str().as_bytes();
        path.get(self.folder.len().saturating_add(1)..)
    }
}
