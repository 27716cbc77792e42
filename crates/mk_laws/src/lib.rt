//! Laws of commands, runs and sessions. It has no code: only laws, over the definitions of mk_session,
//! mk_talk and the crates below, which nothing that runs has to wait for.
//!
//! Readers use these: two scripts one after the other are one script (`two_scripts`), a run leaves
//! tables that read (`runs_keep_reading`), a run without budgets has at most one outcome (`one_run`),
//! and where its files are there a run has one (`orders_and_runs_have_values`). What a search within a
//! budget begins goes up to the place that it saves (`begins_go_up_to_the_place`), and what lies ahead
//! between such places adds up (`parts_of_a_search_add_up`). Two runs over one file are one run of both
//! scripts (`runs_of_one_file`), also where the first is cut (`cut_run_goes_on`). The bytes of a session
//! without its frames are those of a run (`histories_are_scripts`), and without budgets those of each
//! (`one_session`).
#![tactic(auto)]

mod laws;
mod restarts;
mod sessions;
mod values;

pub use laws::{
    begins_go_up_to_the_place, one_run, parts_of_a_search_add_up, runs_keep_reading, two_scripts,
};
pub use restarts::{cut_run_goes_on, runs_of_one_file};
pub use sessions::{histories_are_scripts, one_session};
pub use values::orders_and_runs_have_values;
