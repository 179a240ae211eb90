ghost use Rattle.fr_base.specs.declared.channel.Channel.{Channel};
ghost use Rattle.fr_text.specs.Files.{IsDecided};
ghost use Rattle.fr_capture.specs.CaptureAnswer.{capture_files};

use crate::one_list_of_frames;

/// A law: the bytes of the file decide what is written. Two texts that the answer's clause allows for files of
/// the same bytes are the same.
pub fn file_decides_the_frames()
    ensures { (channel : Channel) → IsDecided (capture_files channel) }
{
    one_list_of_frames();
}
