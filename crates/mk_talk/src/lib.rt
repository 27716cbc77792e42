//! A session that answers each line as it comes, in frames.
//!
//! The program uses one promise, that of `hold`, which is one record: `Speaks` in
//! `specs/Speaks.antt`. Input and output are one object of the trait `Talk`, whose history is the
//! pieces that were read and put, in their order. What is put is the line `ready ..` and one frame,
//! by one put, for each line that asks for something; each has its frame before more is read; and
//! the tables are those that the lines leave, done in turn. What a frame is stands in
//! `specs/Frames.antt`, and what a line is answered with in `specs/Answers.antt`. A law says that
//! without its frames a session is a run of a script (`specs/Laws.antt`).
//!
//! What a line asks for, and what a command does, isn't known here: see `mk_words` and
//! `mk_session`.
#![tactic(auto)]

mod answering;
mod cutting;
mod event;
mod frames;
mod holding;
mod laws;
mod opening;
mod pair;
mod puts;
mod talk;
mod talking;
mod told;

pub use event::Event;
pub use holding::hold;
pub use laws::sessions_are_scripts;
pub use pair::Pair;
pub use talk::Talk;
pub use told::ToldTalk;
