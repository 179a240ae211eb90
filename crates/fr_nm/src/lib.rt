//! Network management vectors of a recording: which records count, and their bitwise OR cycle by cycle; and
//! `flexray nm WIDTH FILE`, which prints them.
#![tactic(auto)]

mod answering;
mod command_laws;
mod counting;
mod fault;
mod fields;
mod folding;
mod kind;
mod laws;
mod reading;
mod rows;
mod told;
mod vector;
mod vector_laws;
mod vectors;
mod writing;

pub use answering::answer_nm;
pub use command_laws::file_decides_the_vectors;
pub use fault::{FileFault, VectorFault};
pub use folding::fold;
pub use kind::VectorsFile;
pub use laws::{
    one_answer, order_changes_nothing, refused_for_the_least_reason, repeating_changes_no_vector,
    some_answer,
};
pub use vector_laws::a_record_that_counts_has_its_vector;
pub use vectors::Vectors;
