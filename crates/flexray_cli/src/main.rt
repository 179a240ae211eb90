//! `flexray`: a FlexRay cluster in one program. `flexray frame A FILE` decodes the frame in a file,
//! `flexray bound PARAMS` computes the bounds and checks of a cluster, `flexray settle PARAMS START RATE` how long its
//! clocks take until they are in sync, `flexray run PARAMS DRIFT SCRIPT` runs it, and `flexray observe PARAMS LOG` tells what
//! a log of it tells of its clocks.
#![tactic(auto)]

use fr_program::{DiskShelf, StreamSink, exit_code, request_words};
use fr_whole::{Status, flexray};
use std::env;
use std::process::ExitCode;

/// How many bytes of stack are asked for at the begin: a fifth more than the command takes that takes most.
const STACK: usize = 327680;

/// Whether the stack has room for every command. Where it cannot grow the system ends the process by a signal, and here no text
/// is begun yet. The count is what no compiler knows, so that the bytes are really there.
#[inline(never)]
fn has_stack(count: usize) -> bool {
    let mut room = [0u8; STACK];
    let at = count % STACK;
    room[at] = 1;
    room[STACK - 1 - at] == 0
}

fn main(rt: HostRuntime) -> ExitCode {
    let Some(words) = request_words(rt.alloc(), env::args(&rt)) else {
        return exit_code(Status::NoMemory);
    };
    if !has_stack(words.len()) {
        return exit_code(Status::NoMemory);
    }
    let mut shelf = DiskShelf::new(&rt);
    let mut out = StreamSink::new(rt.stdout());
    let mut err = StreamSink::new(rt.stderr());
    let status = flexray(rt.alloc(), &words, &mut shelf, &mut out, &mut err);
    exit_code(status)
}
