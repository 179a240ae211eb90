ghost use Rattle.fr_base.specs.declared.channel.Channel.{Channel};
ghost use Rattle.fr_text.specs.Files.{IsDecided};
ghost use Rattle.fr_answer.specs.FrameAnswer.{frame_files};

use fr_crc::{one_frame_crc, one_header_crc};
use fr_frame::one_reading;

/// A law: the bytes of the file decide what is written. Two lines that the answer's clause allows for files of
/// the same bytes are the same.
pub fn file_decides_the_line()
    ensures { (channel : Channel) → IsDecided (frame_files channel) }
{
    one_header_crc();
    one_frame_crc();
    one_reading();
}
