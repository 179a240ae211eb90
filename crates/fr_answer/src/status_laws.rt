ghost use Rattle.std.specs.Prelude.{◌≤◌, ℕ};
ghost use Rattle.fr_base.specs.declared.channel.Channel.{Channel};
ghost use Rattle.fr_bound.specs.Settling.{most_stated};
ghost use Rattle.fr_capture.specs.CaptureAnswer.{capture_files};
ghost use Rattle.fr_check.specs.CheckAnswer.{check_files};
ghost use Rattle.fr_cold.specs.ColdAnswer.{cold_files};
ghost use Rattle.fr_nm.specs.NmAnswer.{nm_files};
ghost use Rattle.fr_params.specs.UpgradeAnswer.{upgrade_files};
ghost use Rattle.fr_report.specs.Files.{run_files};
ghost use Rattle.fr_text.specs.Defined.{DefinesOneStatus};
ghost use Rattle.fr_answer.specs.BoundAnswer.{bound_files, join_files, sharp_files, sharp_join_files};
ghost use Rattle.fr_answer.specs.FrameAnswer.{frame_files};
ghost use Rattle.fr_answer.specs.LossAnswer.{loss_files};
ghost use Rattle.fr_answer.specs.RunAnswer.{IsKeptRunText};
ghost use Rattle.fr_answer.specs.SettleAnswer.{settle_files, sharp_settle_files};
ghost use Rattle.fr_answer.specs.Statuses.{HasOneStatusEach};

use fr_capture::frames_are_found;
use fr_cold::a_startup_has_one_leader;
use fr_frame::{a_fault_is_no_frame, what_is_read_is_there};
use fr_params::{accepted_are_sane, files_are_upgraded};
use fr_report::{a_made_run_has_one_status, a_run_is_lawful, a_trace_has_one_status};
use fr_sharp::{
    costs_are_there, covered_files_keep_sharply, covered_files_keep_sharply_joined,
    joined_files_keep_through_losses, lossy_files_give_runs,
};
use fr_verdict::a_passing_trace_keeps_its_precision;

/// A law: the bytes of the file of a request for bounds define one status, also with the lines of a cluster that nodes
/// join, and of the sharper bounds with a flutter in ticks, and with both.
pub fn bounds_have_one_status()
    ensures bound { DefinesOneStatus bound_files 1 }
    ensures join { DefinesOneStatus join_files 1 }
    ensures sharp { (flutter : ℕ) → DefinesOneStatus (sharp_files flutter) 1 }
    ensures sharp_join { (flutter : ℕ) → DefinesOneStatus (sharp_join_files flutter) 1 }
{
    fr_params::one_answer();
    fr_params::some_answer();
}

/// A law: so do those of a request for how long until in sync, of starts and lengths within what may be stated, and
/// until in sharp sync, with a flutter in ticks.
pub fn settlings_have_one_status()
    ensures older { (start rate : ℕ) → start ≤ most_stated → rate ≤ most_stated →
        DefinesOneStatus (settle_files start rate) 1 }
    ensures sharp { (start rate flutter : ℕ) → start ≤ most_stated → rate ≤ most_stated →
        DefinesOneStatus (sharp_settle_files start rate flutter) 1 }
{
    fr_params::one_answer();
    fr_params::some_answer();
}

/// A law: so do those of a request for what losses cost, with a flutter in ticks and a number of double cycles but 0.
pub fn losses_have_one_status()
    ensures { (flutter count : ℕ) → 1 ≤ count → DefinesOneStatus (loss_files flutter count) 1 }
{
    fr_params::one_answer();
    fr_params::some_answer();
    accepted_are_sane();
    costs_are_there();
}

/// A law: so do those of a request for an upgrade.
pub fn an_upgrade_has_one_status()
    ensures { DefinesOneStatus upgrade_files 1 }
{
    fr_params::one_answer();
    fr_params::some_answer();
    files_are_upgraded();
}

/// A law: the bytes of the file of a request for a frame define one status: they are a frame on the channel, or they
/// have a first fault.
pub fn a_frame_has_one_status()
    ensures { (channel : Channel) → DefinesOneStatus (frame_files channel) 1 }
{
    what_is_read_is_there();
    a_fault_is_no_frame();
}

/// A law: so do those of a request for the frames of a recording.
pub fn a_capture_has_one_status()
    ensures { (channel : Channel) → DefinesOneStatus (capture_files channel) 1 }
{
    frames_are_found();
}

/// A law: so do those of a request for the vectors of a recording, of so many bytes each.
pub fn vectors_have_one_status()
    ensures { (width : ℕ) → DefinesOneStatus (nm_files width) 1 }
{
    fr_nm::one_answer();
    fr_nm::some_answer();
}

/// A law: the bytes of the three files of a run define one status of a request for its report, with what is promised.
pub fn a_run_has_one_status()
    ensures { DefinesOneStatus (run_files IsKeptRunText) 3 }
{
    fr_params::one_answer();
    fr_params::some_answer();
    fr_drift::one_answer();
    fr_drift::some_answer();
    fr_script::one_answer();
    fr_script::some_answer();
    accepted_are_sane();
    a_run_is_lawful();
    covered_files_keep_sharply();
    covered_files_keep_sharply_joined();
    lossy_files_give_runs();
    joined_files_keep_through_losses();
}

/// A law: the bytes of the two files of a startup define one status.
pub fn a_startup_has_one_status()
    ensures { DefinesOneStatus cold_files 2 }
{
    fr_params::one_answer();
    fr_params::some_answer();
    fr_cold::one_answer();
    fr_cold::some_answer();
    accepted_are_sane();
    a_startup_has_one_leader();
}

/// A law: the bytes of the two files of a check define one status: the trace is that of a lawful and covered run, or
/// it has a first breach or a first gap.
pub fn a_check_has_one_status()
    ensures { DefinesOneStatus check_files 2 }
{
    fr_params::one_answer();
    fr_params::some_answer();
    fr_trace::one_answer();
    fr_trace::some_answer();
    fr_verdict::one_answer();
    accepted_are_sane();
    a_passing_trace_keeps_its_precision();
}

/// A law: whatever words of the core ask for, the bytes of the files that they name define exactly one status beside want
/// of memory.
pub fn each_request_has_one_status()
    ensures { HasOneStatusEach }
{
    a_frame_has_one_status();
    bounds_have_one_status();
    losses_have_one_status();
    an_upgrade_has_one_status();
    settlings_have_one_status();
    a_run_has_one_status();
    a_made_run_has_one_status();
    a_capture_has_one_status();
    vectors_have_one_status();
    a_startup_has_one_status();
    a_trace_has_one_status();
    a_check_has_one_status();
}
