//! What is printed of a run cycle by cycle: its series, and the command `flexray-series`.
#![tactic(auto)]

mod basis;
mod course;
mod figure_laws;
mod figures;
mod kept;
mod known;
mod laws;
mod lines;
mod request;
mod scale;
mod series;
mod sharp_laws;
mod sharp_lines;
mod sharp_series;
mod sharp_writing;
mod spread;
mod status_laws;
mod tally;
mod top;
mod writing;

pub use basis::Basis;
pub use course::{Course, sharp_scale};
pub use figure_laws::the_peak_of_a_cycle_is_told;
pub use figures::Figures;
pub use fr_text::Status;
pub use kept::Kept;
pub use known::Known;
pub use laws::{a_covered_run_stays_in_sync, a_series_is_lawful, files_decide_the_series};
pub use request::{Request, request_of};
pub use scale::Scale;
pub use series::answer_series;
pub use sharp_laws::{
    a_covered_run_stays_in_sharp_sync, a_gap_is_told, a_sharp_series_is_lawful,
    files_decide_the_sharp_series,
};
pub use sharp_lines::{kind, last_piece, lasts_piece};
pub use sharp_series::answer_sharp_series;
pub use sharp_writing::{are_in_sharp_sync, write_sharp_series};
pub use status_laws::{a_series_has_one_status, each_series_request_has_one_status};
pub use tally::{SharpFigures, Tally};
pub use top::flexray_series;
pub use writing::write_series;
