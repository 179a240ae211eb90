ghost use Rattle.std.specs.Prelude.{◌≡◌, ◌<◌, ◌≤◌, [], length};
ghost use Rattle.fr_capture.specs.CaptureText.{PutsFrames, fresh_capture};

use crate::Capture;
use crate::lines::frame_line;
use fr_base::{MAX_FILE, PutFault, Sink};
use fr_program::Gathered;

// How many bytes a piece has.
const PIECE: usize = 4096;

// Feeds the bytes piece by piece, and lets the line of each frame wait to be put; answers how many there are.
pub(crate) fn put_frames<O: Sink>(
    capture: &mut Capture,
    bytes: &[u8],
    waiting: &mut Gathered,
    out: &mut O,
) -> Result<u64, PutFault>
    requires room { length bytes.now ≤ MAX_FILE }
    requires none { waiting.old.bytes ≡ [] }
    requires fresh { capture.old ≡ fresh_capture capture.old.channel }
    ensures { PutsFrames capture.new capture.old.channel bytes.now waiting.new.bytes
        (O.state out.old) (O.state out.new) result }
{
    let mut done = 0;
    let mut count = 0;
    while done < bytes.len() {
        let end = piece_end(done, bytes.len());
        let fed = capture.feed(&bytes[done..end]);
        done += fed.used;
        match fed.at {
            Some(place) => {
                waiting.add(frame_line(place, &capture.frame()).bytes(), out)?;
                count += 1;
            }
            None => {
                if done < end {
                    return Ok(count);
                }
            }
        }
    }
    Ok(count)
}

// Where the piece ends in which a byte stands.
fn piece_end(done: usize, len: usize) -> usize
    requires within { done < len }
    requires room { len ≤ MAX_FILE }
    ensures later { done < result }
    ensures within { result ≤ len }
{
    len.min((done / PIECE + 1) * PIECE)
}
