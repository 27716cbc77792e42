// Laws on the files of keepers, which are opened again. Their functions do nothing.
ghost use Rattle.mk_sqlite.specs.Restart.{SettledIsFound, CrashIsFound, CrashStays};

use sqlite_disk::Disk;

/// A keeper that is opened over what the files of another are left with tells the tables that it
/// told, where that one is sound, and else the tables before its last batch or after it.
pub fn files_are_found_again<D: Disk, E: Disk>()
    ensures settled { SettledIsFound D.Disk E.Disk }
    ensures crash { CrashIsFound D.Disk E.Disk }
    ensures stays { CrashStays D.Disk }
{}
