// Laws over runs, each carried by a function that does nothing.
ghost use Rattle.mk_laws.specs.Laws.{OneEffect, OneRun, RunsKeepReading, TwoScripts};
ghost use Rattle.std.specs.Prelude.{List};
ghost use Rattle.mk_outside.specs.declared.tables.RecordRow.{RecordRow};
ghost use Rattle.mk_model.specs.Nodes.{AheadAddsUp};
ghost use Rattle.mk_library.specs.Records.{IsMoleculeAt};
ghost use Rattle.mk_session.specs.StepTicks.{ResumesBeginUpToPlace, SearchesBeginUpToPlace};

use mk_drill::one_drill;
use mk_library::{edits_keep_reading, records_change_alone};
use mk_mol::{one_filled_molecule, one_first_fault};
use mk_query::{
    fault_or_query, kept_text_is_the_query, one_first_fault as one_first_query_fault, one_query,
    passed_queries_fit,
};
use mk_rgfile::{kept_text_stays, query_file_is_exact};
use mk_sdfile::sdfile_is_exact;

/// Two scripts one after the other are one script.
pub fn two_scripts()
    ensures { TwoScripts }
{}

/// Tables that a run leaves read, where those before it did and both next numbers were at least 1.
pub fn runs_keep_reading()
    ensures { RunsKeepReading }
{
    // The laws on which this one rests.
    kept_text_stays();
    kept_text_is_the_query();
    passed_queries_fit();
    edits_keep_reading();
    records_change_alone();
}

/// Over told files a command without a budget comes to at most one effect, and a run in which no
/// command has a budget has at most one outcome: the bytes that it adds, the tables that it leaves,
/// and its status.
pub fn one_run()
    ensures effect { OneEffect }
    ensures run { OneRun }
{
    // The laws on which this one rests.
    query_file_is_exact();
    one_query();
    one_first_query_fault();
    fault_or_query();
    sdfile_is_exact();
    one_first_fault();
    one_filled_molecule();
    one_drill();
}

/// What a search within a budget begins, and what a further part of it does, goes up to the place that
/// is saved.
pub fn begins_go_up_to_the_place()
    ensures search { SearchesBeginUpToPlace }
    ensures resume { ResumesBeginUpToPlace }
{}

/// What lies ahead between the places of a search adds up, over the molecules of records.
pub fn parts_of_a_search_add_up()
    ensures { (records : List RecordRow) → AheadAddsUp (IsMoleculeAt records) }
{}
