//! The engines of `mctpctl` for a web page: each runs over the bytes of an input, and what it writes, what is said of
//! a fault of the input and what `--explain` adds are put into a room that the page gives.
#![tactic(auto)]

mod calls;
mod ending;
mod engine;
mod more;

pub use calls::{
    needleoat_page_answer, needleoat_page_decode, needleoat_page_run, needleoat_page_show,
};
pub use ending::{DONE, Ending, NO_ROOM, NOT_RUN, REFUSED};
