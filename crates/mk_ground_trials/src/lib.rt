//! Tests of the crates at the bottom and of those that read and write files, for what no run of the
//! program shows: the calls that may want memory, once each, tables that are written, rows by
//! number, the types of the model, and the kinds of sources, sinks, files and keepers. It serves
//! tests alone, and nothing stands on it. All other tests are rows of checks/rows.
//!
//! What is promised is proved in mk_text, mk_props, mk_rows, mk_model, mk_outside, mk_tables,
//! mk_rgfile, mk_v3000 and mk_sdfile, whose READMEs name the tests. They stand here since a crate
//! with tests is proved twice.
#![tactic(auto)]

#[cfg(test)]
mod adapter_tests;
#[cfg(test)]
mod file_tests;
#[cfg(test)]
mod keeper_tests;
#[cfg(test)]
mod kind_tests;
#[cfg(test)]
mod model_tests;
#[cfg(test)]
mod property_tests;
#[cfg(test)]
mod row_tests;
#[cfg(test)]
mod text_tests;
#[cfg(test)]
mod writing_checks;
