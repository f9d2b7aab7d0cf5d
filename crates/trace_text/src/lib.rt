//! Traces and answers, as values and as texts.
#![tactic(auto)]

mod answer_parts;
mod answers;
mod in_flight;
mod laws;
mod line;
mod parser;
mod parts;
mod reply;

pub use answer_parts::answers_apart;
pub use answers::{answers_text, rows_text};
pub use laws::every_trace_reads_back;
pub use line::{Line, Request, Trace, number_after};
pub use parser::parse_trace;
pub use parts::parse_parts;
pub use reply::{Answer, Reply};
