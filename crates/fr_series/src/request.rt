ghost use Rattle.std.specs.Prelude.{◌∷◌, []};
ghost use Rattle.fr_program.specs.Program.{texts};
ghost use Rattle.fr_series.specs.Request.{IsSeriesRequest};

use fr_report::RunFiles;

/// What the words ask for.
#[derive(Clone, Copy)]
pub enum Request<'a> {
    /// The series of the run of these files.
    Series(RunFiles<'a>),
    /// Its sharper series.
    SharpSeries(RunFiles<'a>),
}

/// Reads the words by position. It takes no memory.
#[tactic(auto, using(crate::proofs::Requests::asks_not_short, crate::proofs::Requests::asks_not_long))]
pub fn request_of(words: &[String]) -> Option<Request<'_>>
    ensures { IsSeriesRequest (texts words.now) result }
{
    match words {
        [params, drift, script] => {
            request_of_three(params.as_str(), drift.as_str(), script.as_str())
        }
        [params, drift, script, word] => request_of_four(
            params.as_str(),
            drift.as_str(),
            script.as_str(),
            word.as_str(),
        ),
        _ => None,
    }
}

fn request_of_three<'a>(params: &'a str, drift: &'a str, script: &'a str) -> Option<Request<'a>>
    ensures { IsSeriesRequest (params.now ∷ drift.now ∷ script.now ∷ []) result }
{
    Some(Request::Series(RunFiles {
        params,
        drift,
        script,
    }))
}

fn request_of_four<'a>(
    params: &'a str,
    drift: &'a str,
    script: &'a str,
    word: &str,
) -> Option<Request<'a>>
    ensures { IsSeriesRequest (params.now ∷ drift.now ∷ script.now ∷ word.now ∷ []) result }
{
    match word {
        "sharp" => Some(Request::SharpSeries(RunFiles {
            params,
            drift,
            script,
        })),
        _ => None,
    }
}
