// Laws over two runs of one file, carried by functions that do nothing.
ghost use Rattle.mk_laws.specs.Restarts.{CutRunGoesOn, RunsOfOneFile};

use crate::laws::{runs_keep_reading, two_scripts};
use mk_library::{edits_keep_reading, records_change_alone};
use mk_query::{kept_text_is_the_query, passed_queries_fit};
use mk_rgfile::kept_text_stays;
use mk_sqlite::files_are_found_again;
use sqlite_disk::Disk;

/// Two runs of scripts, of which the second opens whatever the files of the first are left with, are one
/// run of the two scripts in one.
pub fn runs_of_one_file<D: Disk, E: Disk>()
    ensures { RunsOfOneFile D.Disk E.Disk }
{
    // The laws on which this one rests.
    runs_keep_reading();
    two_scripts();
    files_are_found_again::<D, E>();
}

/// A run that is cut as a command is committed, and another that opens what is left, are one run of the
/// commands before the cut, with that command or without it, and of the second script.
pub fn cut_run_goes_on<D: Disk, E: Disk>()
    ensures { CutRunGoesOn D.Disk E.Disk }
{
    // The laws on which this one rests.
    kept_text_stays();
    kept_text_is_the_query();
    passed_queries_fit();
    edits_keep_reading();
    records_change_alone();
    files_are_found_again::<D, E>();
}
