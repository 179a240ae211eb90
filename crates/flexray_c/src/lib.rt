//! The programs as calls of C: the requests of `flexray` and of `flexray-series` with files that are bytes of the caller, and
//! a frame read and written. `include/flexray.h` declares them, and docs/LIBRARY.md says what is owed and what is trusted.
#![tactic(auto)]

mod answer;
mod frames;
mod kept;
mod lent;
mod requests;
mod shown;
mod words;

pub use frames::{Frame, flexray_frame_decode, flexray_frame_encode, flexray_frame_next};
pub use kept::KeptText;
pub use lent::LentFiles;
pub use requests::{
    flexray_bound, flexray_request, flexray_run, flexray_series, flexray_series_request,
    flexray_version,
};
pub use shown::Texts;
