//! What a command line asks for, carried out over a source and a volume: the reply of a run, with its log, for the top call.
#![tactic(auto)]

mod command;
mod ending;
mod obey;
mod package;
mod reply;
mod room;
mod serve;
mod stop;
mod walk;
mod work;

pub use reply::Reply;
pub use work::reply_to;
