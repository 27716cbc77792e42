//! Commands on tables, their answers, and the top call: a session on the tables of a keeper, and scripts.
//!
//! The program uses one promise, that of `top`, which is one record: `Headline` in
//! `specs/Headline.antt`. Where no object that it is handed fails and memory suffices, the bytes
//! written, the tables kept and the status are those of the run (`IsRun` in `specs/Run.antt`);
//! every other status comes with its cause and leaves what `specs/Ends.antt` says. Which words are
//! a command stands in mk_words, and what a command comes to in `specs/Step.antt` and the files of
//! mk_edits, mk_query_edits and mk_effects that it cites. Laws over runs stand in mk_laws. Which
//! stored rows read stands in mk_kept, what a hit is in mk_model, the records of an SDfile in
//! mk_sdfile, and the molecule of a table in mk_mol.
//!
//! Only this crate knows what a command does. It reads no columns: see `mk_tables`.
#![tactic(auto)]

mod findings;
mod orders;
mod reading;
mod running;
mod session;
mod sizes;
mod status;
mod stepping;
mod work;

pub use mk_drill::drill;
pub use mk_found::StepFail;
pub use mk_kept::{BeginFail, RowKind};
pub use mk_text::Memory;
pub use mk_words::{
    Command, LineKind, WordsKind, command_of_line, command_of_words, commands_are_read, store_word,
    words_are_read,
};
pub use orders::step_order;
pub use running::{bad_store_line, top};
pub use session::Session;
pub use sizes::Sizes;
pub use status::{Ended, Status};
