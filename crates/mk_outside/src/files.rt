// Files in memory.
ghost use Rattle.std.specs.Prelude.{◌≡◌, ◌≤◌, ◌||◌, [], false, not, Some, is_some, option_copied};
ghost use Rattle.mk_outside.specs.Counts.{Counts};
ghost use Rattle.mk_outside.specs.Told.{Reads, Fills, is_failed_read, is_absence};
ghost use Rattle.mk_outside.specs.Calls.{before_calls, fails_next};
ghost use Rattle.mk_outside.specs.Files.{file_named, sure_file, files_after};

use crate::calls::Calls;
use crate::{CallNumbers, FileFail, Files, ReadEnd};
use mk_text::{Bytes, Listed, Text};
use std::alloc::Global;
use std::marker::Model;

/// A file in memory.
#[derive(Debug, Drop)]
pub struct FileRow {
    pub name: Text,
    pub bytes: Bytes,
}

/// Files in memory. Of several rows of one name the first holds.
pub type FileRows = Listed<FileRow>;

// The bytes of the first row of the name.
fn find<'a>(rows: &'a [FileRow], name: &str) -> Option<&'a [u8]>
    ensures { option_copied result ≡ file_named rows.now name.now }
{
    for row in rows {
        if row.name.as_str() == name {
            return Some(row.bytes.as_slice());
        }
    }
    None
}

// Gives a file's bytes, where they are not too many.
fn give(bytes: &[u8], most: usize, out: &mut Vec<u8>) -> Result<ReadEnd, FileFail>
    requires { out.old.items ≡ [] }
    ensures told { Reads (Some bytes.now) most out.new.items result }
    ensures fills { Fills most out.new.items result }
    ensures sure { is_failed_read result ≡ false }
{
    if bytes.len() > most {
        return Ok(ReadEnd::TooLong);
    }
    out.extend_from_slice(bytes)?;
    Ok(ReadEnd::Whole)
}

/// Files in memory, whose calls fail by their numbers, and at a name that isn't there.
#[derive(Debug, Drop)]
pub struct MemFiles {
    rows: FileRows,
    calls: Calls,
    absences: u64,
}

impl Model for MemFiles {
    ghost use Rattle.mk_outside.specs.Files.{FilesState};

    ghost Value = { FilesState };

    ghost view = { λ f. record { rows = f.rows; calls = f.calls; absences = f.absences } };
}

impl MemFiles {
    pub fn new(files: FileRows, failing: CallNumbers) -> MemFiles
        ensures { result ≡ record { rows = files; calls = before_calls failing; absences = 0 } }
    {
        MemFiles {
            rows: files,
            calls: Calls::new(failing),
            absences: 0,
        }
    }
}

impl Files for MemFiles {
    ghost look_up = { λ f. Some (file_named f.rows) };

    ghost faults = { λ f. f.calls.faults };

    ghost absences = { λ f. f.absences };

    fn read(
        &mut self,
        _alloc: Global,
        name: &str,
        most: usize,
        out: &mut Vec<u8>,
    ) -> Result<ReadEnd, FileFail>
        ensures kept { Some (file_named self.new.rows) ≡ Some (file_named self.old.rows) }
        ensures told { Reads (file_named self.old.rows name.now) most out.new.items result }
        ensures fills { Fills most out.new.items result }
        ensures counted { Counts (is_failed_read result) self.old.calls.faults self.new.calls.faults }
        ensures never_falls { self.old.absences ≤ self.new.absences }
        ensures missed { Counts (is_absence (file_named self.old.rows name.now) result) self.old.absences self.new.absences }
        ensures fails { is_failed_read result ≡ (fails_next self.old.calls || not (is_some (file_named self.old.rows name.now))) }
        ensures after { self.new ≡ files_after self.old name.now result }
    {
        out.clear();
        let fails = self.calls.begin();
        let Some(bytes) = find(self.rows.as_slice(), name) else {
            self.calls.fault();
            self.absences = self.absences.saturating_add(1);
            return Err(FileFail::Failed);
        };
        if fails {
            self.calls.fault();
            return Err(FileFail::Failed);
        }
        give(bytes, most, out)
    }
}

/// Files in memory that never fail, with a file of no bytes under each name that they weren't
/// given.
#[derive(Debug, Drop)]
pub struct SureFiles {
    rows: FileRows,
}

impl Model for SureFiles {
    ghost use Rattle.std.specs.Prelude.{List};
    ghost use Rattle.mk_outside.specs.declared.files.FileRow.{FileRow};

    ghost Value = { List FileRow };

    ghost view = { λ f. f.rows };
}

impl SureFiles {
    pub fn new(files: FileRows) -> SureFiles
        ensures { result ≡ files }
    {
        SureFiles { rows: files }
    }
}

impl Files for SureFiles {
    ghost look_up = { λ f. Some (sure_file f) };

    ghost faults = { λ _. 0 };

    ghost absences = { λ _. 0 };

    fn read(
        &mut self,
        _alloc: Global,
        name: &str,
        most: usize,
        out: &mut Vec<u8>,
    ) -> Result<ReadEnd, FileFail>
        ensures kept { Some (sure_file self.new) ≡ Some (sure_file self.old) }
        ensures told { Reads (sure_file self.old name.now) most out.new.items result }
        ensures fills { Fills most out.new.items result }
        ensures counted { Counts (is_failed_read result) 0 0 }
        ensures never_falls { 0 ≤ 0 }
        ensures missed { Counts (is_absence (sure_file self.old name.now) result) 0 0 }
        ensures sure { is_failed_read result ≡ false }
        ensures same { self.new ≡ self.old }
    {
        out.clear();
        match find(self.rows.as_slice(), name) {
            Some(bytes) => give(bytes, most, out),
            None => Ok(ReadEnd::Whole),
        }
    }
}
