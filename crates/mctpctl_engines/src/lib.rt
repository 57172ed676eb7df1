//! What `mctpctl` does between a reader and a writer: a capture answered, a schedule run, a capture shown.
#![tactic(auto)]

mod answer_run;
mod capture_lines;
mod described_lines;
mod description_lines;
mod finished_run;
mod line_run;
mod message_form;
mod observer;
mod piece_loop;
mod schedule_lines;
mod schedule_run;
mod show;

pub use answer_run::answer_all;
pub use description_lines::read_description;
pub use mctpctl_input::{
    DescriptionFault, EngineFault, LineKind, MAX_CAPTURE_LINE, MAX_DESCRIPTION, MAX_DIVIDER,
    MAX_INPUT, Port, fault_line, status_of,
};
pub use message_form::{InHex, MessageForm};
pub use schedule_run::run_all;
pub use show::{show_all, show_as};
