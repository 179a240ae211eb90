//! The fault script of a cluster: which nodes are arbitrary, which join the running cluster, and what becomes of each
//! frame.
#![tactic(auto)]

mod deed;
mod deeds;
mod draft;
mod fault;
mod fields;
mod joins;
mod kind;
mod laws;
mod reading;
mod rows;
mod sayings;
mod script;
mod told;
mod typed;

pub use fault::ScriptFault;
pub use kind::ScriptFile;
pub use laws::{
    arbitrary_node_has_key_slot, events_are_proper, flipped_bit_is_of_a_frame,
    joining_nodes_have_references, one_answer, refused_for_the_least_reason, script_of_a_file_fits,
    script_of_a_file_is_sound, some_answer,
};
pub use reading::read;
pub use script::{Event, Script};
