ghost use Rattle.std.specs.Prelude.{◌∷◌, [], codes, IfSome};
ghost use Rattle.fr_program.specs.Program.{texts};
ghost use Rattle.fr_answer.specs.Request.{IsInRange, IsRequestOf};

use fr_base::Channel;
use fr_check::CheckFiles;
use fr_cold::ColdFiles;
use fr_report::RunFiles;
use fr_text::natural;

// The greatest flutter that may be stated, in ticks.
const MOST_FLUTTER: u64 = 20_000_000;

// The greatest number of double cycles in a row that may lose frames.
const MOST_LOST: u64 = 1_000;

// The greatest number of ticks that may be stated.
const MOST_STATED: u64 = 1_000_000_000_000;

/// What the words ask for.
#[derive(Clone, Copy)]
pub enum Request<'a> {
    /// Decode the bytes of the file as a frame on the channel.
    Frame {
        channel: Channel,
        file: &'a str,
    },
    /// Print the bounds and checks of the parameters in the file.
    Bound {
        file: &'a str,
    },
    /// Print these, and those of a cluster that nodes join.
    BoundJoin {
        file: &'a str,
    },
    /// Print the sharper bounds and checks, where delays flutter by no more than so many ticks.
    BoundSharp {
        file: &'a str,
        flutter: u64,
    },
    /// Print these, and the sharper ones of a cluster that nodes join.
    BoundSharpJoin {
        file: &'a str,
        flutter: u64,
    },
    /// Print what losses cost: of any frames in so many double cycles in a row, 1 to 1000, with so many ticks of flutter.
    BoundLost {
        file: &'a str,
        flutter: u64,
        count: u32,
    },
    /// Print the parameters in the file as a file of version 2.
    Upgrade {
        file: &'a str,
    },
    /// Print how long clocks take until they are in sync that begin at most so many ticks apart, and the lengths of whose
    /// first two cycles lie at most so many ticks apart.
    Settle {
        file: &'a str,
        start: u64,
        rate: u64,
    },
    /// Print how long they take until they are in sharp sync, where delays flutter by no more than so many ticks.
    SettleSharp {
        file: &'a str,
        start: u64,
        rate: u64,
        flutter: u64,
    },
    /// Run the cluster that the files decide, and print the report.
    Run(RunFiles<'a>),
    /// Run the cluster of a seed over so many double cycles, and print the report.
    Make {
        seed: u32,
        doubles: u32,
    },
    /// List the frames of the recording in the file, on the channel.
    Capture {
        channel: Channel,
        file: &'a str,
    },
    /// Print the network management vectors of so many bytes of the recording in the file.
    Nm {
        width: usize,
        file: &'a str,
    },
    /// Print who leads the startup that the files decide.
    Cold(ColdFiles<'a>),
    /// Run the cluster that the files decide, and print the trace of the run.
    Trace(RunFiles<'a>),
    /// Say whether a recorded trace is that of a lawful and covered run.
    Check(CheckFiles<'a>),
}

/// Reads the words by position. It takes no memory.
#[tactic(auto, using(crate::proofs::Requests::asks_not_short, crate::proofs::Requests::asks_not_long))]
pub fn request_of(words: &[String]) -> Option<Request<'_>>
    ensures asks { IsRequestOf (texts words.now) result }
    ensures range { IfSome result IsInRange }
{
    match words {
        [command, channel, file] => {
            request_of_three(command.as_str(), channel.as_str(), file.as_str())
        }
        [command, file] => request_of_two(command.as_str(), file.as_str()),
        [command, first, second, third] => request_of_four(
            command.as_str(),
            first.as_str(),
            second.as_str(),
            third.as_str(),
        ),
        [command, first, second, third, fourth] => request_of_five(
            command.as_str(),
            first.as_str(),
            second.as_str(),
            third.as_str(),
            fourth.as_str(),
        ),
        [command, first, second, third, fourth, fifth] => request_of_six(
            command.as_str(),
            first.as_str(),
            second.as_str(),
            third.as_str(),
            fourth.as_str(),
            fifth.as_str(),
        ),
        _ => None,
    }
}

fn request_of_three<'a>(command: &str, first: &'a str, second: &'a str) -> Option<Request<'a>>
    ensures asks { IsRequestOf (command.now ∷ first.now ∷ second.now ∷ []) result }
    ensures range { IfSome result IsInRange }
{
    match command {
        "frame" => frame_request(first, second),
        "bound" => bound_join_request(first, second),
        "capture" => capture_request(first, second),
        "make" => make_request(first, second),
        "nm" => nm_request(first, second),
        "cold" => Some(Request::Cold(ColdFiles {
            params: first,
            power: second,
        })),
        "check" => Some(Request::Check(CheckFiles {
            params: first,
            trace: second,
        })),
        _ => None,
    }
}

fn frame_request<'a>(channel: &str, file: &'a str) -> Option<Request<'a>>
    ensures asks { IsRequestOf (codes "frame" ∷ channel.now ∷ file.now ∷ []) result }
    ensures range { IfSome result IsInRange }
{
    let channel = Channel::spelt(channel.as_bytes())?;
    Some(Request::Frame { channel, file })
}

fn capture_request<'a>(channel: &str, file: &'a str) -> Option<Request<'a>>
    ensures asks { IsRequestOf (codes "capture" ∷ channel.now ∷ file.now ∷ []) result }
    ensures range { IfSome result IsInRange }
{
    let channel = Channel::spelt(channel.as_bytes())?;
    Some(Request::Capture { channel, file })
}

fn make_request<'a>(seed: &str, doubles: &str) -> Option<Request<'a>>
    ensures asks { IsRequestOf (codes "make" ∷ seed.now ∷ doubles.now ∷ []) result }
    ensures range { IfSome result IsInRange }
{
    match natural(seed.as_bytes(), 0, 4_294_967_295) {
        Ok(seed) => match natural(doubles.as_bytes(), 1, 10_000) {
            Ok(doubles) => Some(Request::Make {
                seed: seed as u32,
                doubles: doubles as u32,
            }),
            Err(_) => None,
        },
        Err(_) => None,
    }
}

fn nm_request<'a>(width: &str, file: &'a str) -> Option<Request<'a>>
    ensures asks { IsRequestOf (codes "nm" ∷ width.now ∷ file.now ∷ []) result }
    ensures range { IfSome result IsInRange }
{
    match natural(width.as_bytes(), 1, 12) {
        Ok(width) => Some(Request::Nm {
            width: width as usize,
            file,
        }),
        Err(_) => None,
    }
}

fn request_of_two<'a>(command: &str, file: &'a str) -> Option<Request<'a>>
    ensures asks { IsRequestOf (command.now ∷ file.now ∷ []) result }
    ensures range { IfSome result IsInRange }
{
    match command {
        "bound" => Some(Request::Bound { file }),
        "upgrade" => Some(Request::Upgrade { file }),
        _ => None,
    }
}

fn bound_join_request<'a>(file: &'a str, word: &str) -> Option<Request<'a>>
    ensures asks { IsRequestOf (codes "bound" ∷ file.now ∷ word.now ∷ []) result }
    ensures range { IfSome result IsInRange }
{
    match word {
        "join" => Some(Request::BoundJoin { file }),
        _ => None,
    }
}

fn bound_sharp_request<'a>(file: &'a str, word: &str, flutter: &str) -> Option<Request<'a>>
    ensures asks { IsRequestOf (codes "bound" ∷ file.now ∷ word.now ∷ flutter.now ∷ []) result }
    ensures range { IfSome result IsInRange }
{
    match word {
        "sharp" => match natural(flutter.as_bytes(), 0, MOST_FLUTTER) {
            Ok(flutter) => Some(Request::BoundSharp { file, flutter }),
            Err(_) => None,
        },
        _ => None,
    }
}

fn request_of_four<'a>(
    command: &str,
    first: &'a str,
    second: &'a str,
    third: &'a str,
) -> Option<Request<'a>>
    ensures asks { IsRequestOf (command.now ∷ first.now ∷ second.now ∷ third.now ∷ []) result }
    ensures range { IfSome result IsInRange }
{
    match command {
        "run" => Some(Request::Run(RunFiles {
            params: first,
            drift: second,
            script: third,
        })),
        "trace" => Some(Request::Trace(RunFiles {
            params: first,
            drift: second,
            script: third,
        })),
        "settle" => settle_request(first, second, third),
        "bound" => bound_sharp_request(first, second, third),
        _ => None,
    }
}

fn settle_request<'a>(file: &'a str, start: &str, rate: &str) -> Option<Request<'a>>
    ensures asks { IsRequestOf (codes "settle" ∷ file.now ∷ start.now ∷ rate.now ∷ []) result }
    ensures range { IfSome result IsInRange }
{
    match natural(start.as_bytes(), 0, MOST_STATED) {
        Ok(start) => match natural(rate.as_bytes(), 0, MOST_STATED) {
            Ok(rate) => Some(Request::Settle { file, start, rate }),
            Err(_) => None,
        },
        Err(_) => None,
    }
}

fn request_of_five<'a>(
    command: &str,
    first: &'a str,
    second: &str,
    third: &str,
    fourth: &str,
) -> Option<Request<'a>>
    ensures asks { IsRequestOf (command.now ∷ first.now ∷ second.now ∷ third.now ∷ fourth.now ∷ []) result }
    ensures range { IfSome result IsInRange }
{
    match command {
        "bound" => bound_by_words(first, second, third, fourth),
        _ => None,
    }
}

fn bound_by_words<'a>(file: &'a str, word: &str, flutter: &str, last: &str) -> Option<Request<'a>>
    ensures asks { IsRequestOf (codes "bound" ∷ file.now ∷ word.now ∷ flutter.now ∷ last.now ∷ []) result }
    ensures range { IfSome result IsInRange }
{
    match word {
        "sharp" => bound_sharp_by_word(file, flutter, last),
        _ => None,
    }
}

fn bound_sharp_by_word<'a>(file: &'a str, flutter: &str, last: &str) -> Option<Request<'a>>
    ensures asks { IsRequestOf
        (codes "bound" ∷ file.now ∷ codes "sharp" ∷ flutter.now ∷ last.now ∷ []) result }
    ensures range { IfSome result IsInRange }
{
    match last {
        "join" => match natural(flutter.as_bytes(), 0, MOST_FLUTTER) {
            Ok(flutter) => Some(Request::BoundSharpJoin { file, flutter }),
            Err(_) => None,
        },
        _ => None,
    }
}

fn request_of_six<'a>(
    command: &str,
    first: &'a str,
    second: &str,
    third: &str,
    fourth: &str,
    fifth: &str,
) -> Option<Request<'a>>
    ensures asks { IsRequestOf
        (command.now ∷ first.now ∷ second.now ∷ third.now ∷ fourth.now ∷ fifth.now ∷ []) result }
    ensures range { IfSome result IsInRange }
{
    match command {
        "settle" => settle_by_word(first, second, third, fourth, fifth),
        "bound" => lost_by_word(first, second, third, fourth, fifth),
        _ => None,
    }
}

fn settle_by_word<'a>(
    file: &'a str,
    start: &str,
    rate: &str,
    word: &str,
    flutter: &str,
) -> Option<Request<'a>>
    ensures asks { IsRequestOf
        (codes "settle" ∷ file.now ∷ start.now ∷ rate.now ∷ word.now ∷ flutter.now ∷ []) result }
    ensures range { IfSome result IsInRange }
{
    match word {
        "sharp" => settle_sharp_request(file, start, rate, flutter),
        _ => None,
    }
}

fn lost_by_word<'a>(
    file: &'a str,
    word: &str,
    flutter: &str,
    last: &str,
    count: &str,
) -> Option<Request<'a>>
    ensures asks { IsRequestOf
        (codes "bound" ∷ file.now ∷ word.now ∷ flutter.now ∷ last.now ∷ count.now ∷ []) result }
    ensures range { IfSome result IsInRange }
{
    match word {
        "sharp" => lost_by_last_word(file, flutter, last, count),
        _ => None,
    }
}

fn lost_by_last_word<'a>(
    file: &'a str,
    flutter: &str,
    last: &str,
    count: &str,
) -> Option<Request<'a>>
    ensures asks { IsRequestOf
        (codes "bound" ∷ file.now ∷ codes "sharp" ∷ flutter.now ∷ last.now ∷ count.now ∷ []) result }
    ensures range { IfSome result IsInRange }
{
    match last {
        "lost" => lost_request(file, flutter, count),
        _ => None,
    }
}

fn lost_request<'a>(file: &'a str, flutter: &str, count: &str) -> Option<Request<'a>>
    ensures asks { IsRequestOf
        (codes "bound" ∷ file.now ∷ codes "sharp" ∷ flutter.now ∷ codes "lost" ∷ count.now ∷ []) result }
    ensures range { IfSome result IsInRange }
{
    match natural(flutter.as_bytes(), 0, MOST_FLUTTER) {
        Ok(flutter) => match natural(count.as_bytes(), 1, MOST_LOST) {
            Ok(count) => Some(Request::BoundLost {
                file,
                flutter,
                count: count as u32,
            }),
            Err(_) => None,
        },
        Err(_) => None,
    }
}

fn settle_sharp_request<'a>(
    file: &'a str,
    start: &str,
    rate: &str,
    flutter: &str,
) -> Option<Request<'a>>
    ensures asks { IsRequestOf
        (codes "settle" ∷ file.now ∷ start.now ∷ rate.now ∷ codes "sharp" ∷ flutter.now ∷ []) result }
    ensures range { IfSome result IsInRange }
{
    match natural(start.as_bytes(), 0, MOST_STATED) {
        Ok(start) => match natural(rate.as_bytes(), 0, MOST_STATED) {
            Ok(rate) => match natural(flutter.as_bytes(), 0, MOST_FLUTTER) {
                Ok(flutter) => Some(Request::SettleSharp {
                    file,
                    start,
                    rate,
                    flutter,
                }),
                Err(_) => None,
            },
            Err(_) => None,
        },
        Err(_) => None,
    }
}
