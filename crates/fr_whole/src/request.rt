ghost use Rattle.std.specs.Prelude.{◌≤◌, ◌∷◌, [], codes, IfSome};
ghost use Rattle.fr_answer.specs.Request.{most_stated_flutter};
ghost use Rattle.fr_program.specs.Program.{texts};
ghost use Rattle.fr_whole.specs.Whole.{IsLogRequest, IsPowerOnRequest, IsSharpCheckRequest, IsSharpReportRequest, IsWholeRequest};

use crate::observe::ObserveFiles;
use crate::pages::{Page, page_request};
use fr_bound::Flutter;
use fr_check::CheckFiles;
use fr_report::RunFiles;
use fr_text::natural;

// The greatest flutter that may be stated, in ticks.
const MOST_FLUTTER: u64 = 20_000_000;

/// What a request for how long from power-on to sharp sync states.
#[derive(Clone, Drop)]
pub struct PowerOnRequest<'a> {
    /// The name of the file of the cluster's parameters.
    pub params: &'a str,
    /// By how many ticks delays flutter at most.
    pub flutter: Flutter,
}

/// What the words of the whole program ask for.
#[derive(Clone, Drop)]
pub enum WholeRequest<'a> {
    /// Print what the log in a file tells of a cluster's clocks.
    Log(ObserveFiles<'a>),
    /// Run the cluster that the files decide, and print what the sharper bounds say of it, and the report.
    SharpReport(RunFiles<'a>),
    /// Print what the program says of itself.
    OnePage(Page),
    /// Print what the sharper bounds promise of a recorded trace.
    SharpCheck(CheckFiles<'a>),
    /// Print how long it takes from the first power-on until all are in sharp sync.
    PowerOn(PowerOnRequest<'a>),
    /// What the core makes of the words, which may be no request.
    Core,
}

/// Reads the words of the whole program. It takes no memory.
pub fn whole_request(words: &[String]) -> WholeRequest<'_>
    ensures { IsWholeRequest (texts words.now) result }
{
    match log_request(words) {
        Some(files) => WholeRequest::Log(files),
        None => match sharp_report_request(words) {
            Some(files) => WholeRequest::SharpReport(files),
            None => match page_request(words) {
                Some(page) => WholeRequest::OnePage(page),
                None => match sharp_check_request(words) {
                    Some(files) => WholeRequest::SharpCheck(files),
                    None => match power_on_request(words) {
                        Some(asked) => WholeRequest::PowerOn(asked),
                        None => WholeRequest::Core,
                    },
                },
            },
        },
    }
}

/// The files of the words `observe PARAMS LOG`, and none of other words. It takes no memory.
#[tactic(auto, using(crate::proofs::Words::not_short, crate::proofs::Words::not_long))]
pub fn log_request(words: &[String]) -> Option<ObserveFiles<'_>>
    ensures { IsLogRequest (texts words.now) result }
{
    match words {
        [command, params, log] => log_request_of(command.as_str(), params.as_str(), log.as_str()),
        _ => None,
    }
}

fn log_request_of<'a>(command: &str, params: &'a str, log: &'a str) -> Option<ObserveFiles<'a>>
    ensures { IsLogRequest (command.now ∷ params.now ∷ log.now ∷ []) result }
{
    match command {
        "observe" => Some(ObserveFiles { params, log }),
        _ => None,
    }
}

/// The files of the words `run PARAMS DRIFT SCRIPT sharp`, and none of other words. It takes no memory.
#[tactic(auto, using(crate::proofs::Words::not_shorter, crate::proofs::Words::not_longer))]
pub fn sharp_report_request(words: &[String]) -> Option<RunFiles<'_>>
    ensures { IsSharpReportRequest (texts words.now) result }
{
    match words {
        [command, params, drift, script, last] => sharp_report_request_of(
            command.as_str(),
            params.as_str(),
            drift.as_str(),
            script.as_str(),
            last.as_str(),
        ),
        _ => None,
    }
}

fn sharp_report_request_of<'a>(
    command: &str,
    params: &'a str,
    drift: &'a str,
    script: &'a str,
    last: &str,
) -> Option<RunFiles<'a>>
    ensures { IsSharpReportRequest (command.now ∷ params.now ∷ drift.now ∷ script.now ∷ last.now ∷ []) result }
{
    match command {
        "run" => sharp_report_by_word(params, drift, script, last),
        _ => None,
    }
}

fn sharp_report_by_word<'a>(
    params: &'a str,
    drift: &'a str,
    script: &'a str,
    last: &str,
) -> Option<RunFiles<'a>>
    ensures { IsSharpReportRequest (codes "run" ∷ params.now ∷ drift.now ∷ script.now ∷ last.now ∷ []) result }
{
    match last {
        "sharp" => Some(RunFiles {
            params,
            drift,
            script,
        }),
        _ => None,
    }
}

/// The files of the words `check PARAMS TRACE sharp`, and none of other words. It takes no memory.
#[tactic(auto, using(crate::proofs::Words::not_so_few, crate::proofs::Words::not_so_many))]
pub fn sharp_check_request(words: &[String]) -> Option<CheckFiles<'_>>
    ensures { IsSharpCheckRequest (texts words.now) result }
{
    match words {
        [command, params, trace, last] => sharp_check_request_of(
            command.as_str(),
            params.as_str(),
            trace.as_str(),
            last.as_str(),
        ),
        _ => None,
    }
}

fn sharp_check_request_of<'a>(
    command: &str,
    params: &'a str,
    trace: &'a str,
    last: &str,
) -> Option<CheckFiles<'a>>
    ensures { IsSharpCheckRequest (command.now ∷ params.now ∷ trace.now ∷ last.now ∷ []) result }
{
    match command {
        "check" => sharp_check_by_word(params, trace, last),
        _ => None,
    }
}

fn sharp_check_by_word<'a>(params: &'a str, trace: &'a str, last: &str) -> Option<CheckFiles<'a>>
    ensures { IsSharpCheckRequest (codes "check" ∷ params.now ∷ trace.now ∷ last.now ∷ []) result }
{
    match last {
        "sharp" => Some(CheckFiles { params, trace }),
        _ => None,
    }
}

/// What the words `settle PARAMS power FLUTTER` state, with a number of ticks, and none of other words. It takes no memory.
#[tactic(auto, using(crate::proofs::Words::not_fewer, crate::proofs::Words::not_more))]
pub fn power_on_request(words: &[String]) -> Option<PowerOnRequest<'_>>
    ensures asks { IsPowerOnRequest (texts words.now) result }
    ensures range { IfSome result (λ asked. asked.flutter ≤ most_stated_flutter) }
{
    match words {
        [command, params, word, flutter] => power_on_request_of(
            command.as_str(),
            params.as_str(),
            word.as_str(),
            flutter.as_str(),
        ),
        _ => None,
    }
}

fn power_on_request_of<'a>(
    command: &str,
    params: &'a str,
    word: &str,
    flutter: &str,
) -> Option<PowerOnRequest<'a>>
    ensures asks { IsPowerOnRequest (command.now ∷ params.now ∷ word.now ∷ flutter.now ∷ []) result }
    ensures range { IfSome result (λ asked. asked.flutter ≤ most_stated_flutter) }
{
    match command {
        "settle" => power_on_by_word(params, word, flutter),
        _ => None,
    }
}

fn power_on_by_word<'a>(params: &'a str, word: &str, flutter: &str) -> Option<PowerOnRequest<'a>>
    ensures asks { IsPowerOnRequest (codes "settle" ∷ params.now ∷ word.now ∷ flutter.now ∷ []) result }
    ensures range { IfSome result (λ asked. asked.flutter ≤ most_stated_flutter) }
{
    match word {
        "power" => power_on_with(params, flutter),
        _ => None,
    }
}

fn power_on_with<'a>(params: &'a str, flutter: &str) -> Option<PowerOnRequest<'a>>
    ensures asks { IsPowerOnRequest (codes "settle" ∷ params.now ∷ codes "power" ∷ flutter.now ∷ []) result }
    ensures range { IfSome result (λ asked. asked.flutter ≤ most_stated_flutter) }
{
    match natural(flutter.as_bytes(), 0, MOST_FLUTTER) {
        Ok(flutter) => Some(PowerOnRequest {
            params,
            flutter: Flutter(flutter),
        }),
        Err(_) => None,
    }
}
