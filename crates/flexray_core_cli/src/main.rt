//! `flexray` with all words but `observe`, `help`, `version`, `sharp` of `run` and of `check`, and `power` of `settle`: what the
//! launcher of a checkout builds first, since it stands on no crate that these alone need. `flexray_cli` has every word.
#![tactic(auto)]

use fr_answer::{Status, flexray_core};
use fr_program::{DiskShelf, StreamSink, exit_code, request_words};
use std::env;
use std::process::ExitCode;

/// How many bytes of stack are asked for at the begin: a third more than the command takes that takes most.
const STACK: usize = 327680;

/// Whether the stack has room for every command. Where it cannot grow the system ends the process by a signal, and here no text
/// is begun yet. The count is what no compiler knows, so that the bytes are really there.
#[inline(never)]
fn has_stack(count: usize) -> bool {
    let mut room = [0u8; STACK];
    let at = count % STACK;
    room[at] = 1;
    room[STACK - 1 - at] == 0
}

fn main(rt: HostRuntime) -> ExitCode {
    let Some(words) = request_words(rt.alloc(), env::args(&rt)) else {
        return exit_code(Status::NoMemory);
    };
    if !has_stack(words.len()) {
        return exit_code(Status::NoMemory);
    }
    let mut shelf = DiskShelf::new(&rt);
    let mut out = StreamSink::new(rt.stdout());
    let mut err = StreamSink::new(rt.stderr());
    let status = flexray_core(rt.alloc(), &words, &mut shelf, &mut out, &mut err);
    exit_code(status)
}
