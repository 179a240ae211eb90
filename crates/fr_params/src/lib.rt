//! What the parameters of a cluster are made of, and their file: the table of parameter names with their ranges; the
//! constraints, checked in order by `params_of`, and `assemble`; what a file must hold to be accepted and the parameters
//! that it stands for; and these as the text of a file of version 2, which `flexray upgrade PARAMS` prints.
#![tactic(auto)]

mod assembling;
mod draft;
mod fault;
mod kind;
mod laws;
mod limits;
mod making;
mod names;
mod reading;
mod rows;
mod searches;
mod told;
mod upgrade;
mod upgrade_laws;
mod upgraded_texts;
mod writing;

pub use assembling::assemble;
pub use fault::ParamFault;
pub use kind::ParamsFile;
pub use laws::{
    an_accepted_file_is_assembled, fourth_constraint_is_signed, no_difference_is_cut, one_answer,
    refused_for_the_least_reason, some_answer,
};
pub use making::{ClusterFault, params_of};
pub use names::{
    NAMES, NAMES_OF_ONE, NAMES_OF_TWO, Version, greatest_of, least_of, name_of, names_of, place_of,
    word_of,
};
pub use reading::read;
pub use upgrade::answer_upgrade;
pub use upgrade_laws::file_decides_the_upgrade;
pub use upgraded_texts::{
    accepted_are_on_channels, accepted_are_sane, files_are_upgraded, texts_are_accepted,
};
pub use writing::write;
