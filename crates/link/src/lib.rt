// The link: rows and holds, and the sender.
#![tactic(auto)]

mod holds;
mod packets;
mod rows;
mod sender;
pub mod state;
mod table;
