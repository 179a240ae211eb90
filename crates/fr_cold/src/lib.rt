//! How the coldstart nodes of a cluster start it up, as modelled: what each of them does at each macrotick, whom its
//! sends turn back, and that at most one of them comes to lead. The power file, which says when each is switched on
//! and off; the run of a startup from one begin of leading to the next; and `flexray cold PARAMS POWER`, which prints
//! who leads.
#![tactic(auto)]

mod actions;
mod answering;
mod cold;
mod command_laws;
mod connected;
mod connected_laws;
mod draft;
mod events;
mod fault;
mod files;
mod keys;
mod kind;
mod laws;
mod moves;
mod power;
mod printing;
mod reading;
mod rows;
mod startup_laws;
mod state;
mod table;
mod ticks;
mod told;

pub use actions::action;
pub use answering::answer_cold;
pub use cold::{Cold, Lead};
pub use command_laws::{a_startup_has_one_leader, files_decide_the_leaders};
pub use connected_laws::the_least_two_apart_are_told;
pub use fault::PowerFault;
pub use files::ColdFiles;
pub use kind::PowerFile;
pub use laws::{one_answer, refused_for_the_least_reason, some_answer, switched_on_once};
pub use moves::{is_leading, moved, quiet_before, ready, resolves, sends};
pub use power::Power;
pub use reading::read;
pub use startup_laws::{at_most_one_leads, the_first_leads};
pub use state::{ColdState, Switch};
