//! The engine: the top call over a source, a volume and a sink.
#![tactic(auto)]

mod answer;
mod code;
mod top;

pub use answer::Answer;
pub use code::answer_code;
pub use top::run;
