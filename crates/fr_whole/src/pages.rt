ghost use Rattle.std.specs.Prelude.{◌≡◌, ◌∷◌, []};
ghost use Rattle.fr_base.specs.Device.{Shelved};
ghost use Rattle.fr_program.specs.Around.{around_of};
ghost use Rattle.fr_program.specs.Command.{CommandEnds};
ghost use Rattle.fr_program.specs.Failure.{EndingWritesNothing};
ghost use Rattle.fr_program.specs.Program.{texts};
ghost use Rattle.fr_whole.specs.Pages.{IsPageRequest, page_command, page_text};

use fr_base::Sink;
use fr_program::Failure;
use fr_text::put_text;

/// What the program says of itself.
#[derive(Clone, Copy, Debug, PartialEq, Eq)]
pub enum Page {
    /// Its words, and what each request is for.
    Help,
    /// Its version.
    Version,
}

// The words of all requests but the pages, with what a caller gives in capitals, and what each is for. The launcher prints
// these lines.
const HELP: &[u8] = b"usage: flexray COMMAND WORDS

  flexray bound PARAMS               the classical precision, three more bounds, and the five checks of a cluster
  flexray bound PARAMS join          the classical bounds, and the reach and four checks of a cluster that nodes join
  flexray bound PARAMS sharp FLUTTER
                                     the sharper bounds and checks, where delays flutter by at most so many ticks
  flexray bound PARAMS sharp FLUTTER join
                                     the sharper bounds, and the reach and checks of a cluster that nodes join
  flexray bound PARAMS sharp FLUTTER lost COUNT
                                     how far clocks come apart if any frames are lost in COUNT double cycles in a row
  flexray upgrade PARAMS             the parameters as a file of version 2: one compensation per channel
  flexray settle PARAMS START RATE   how many double cycles until in sync at most, from START and RATE in ticks
  flexray settle PARAMS START RATE sharp FLUTTER
                                     how many double cycles it takes at most to be in sharp sync
  flexray settle PARAMS power FLUTTER
                                     how long from the first power-on to sharp sync, if all others join the leader
  flexray run PARAMS DRIFT SCRIPT    the report of a run
  flexray run PARAMS DRIFT SCRIPT sharp
                                     what the sharper bounds say of a run, and behind it the report
  flexray trace PARAMS DRIFT SCRIPT  what each node did and measured, cycle by cycle
  flexray check PARAMS TRACE         whether a recorded trace is lawful and covered, or why not
  flexray check PARAMS TRACE sharp   what the sharper bounds promise of a recorded trace
  flexray observe PARAMS LOG         what the stamps of a bus analyzer tell for certain of a cluster's clocks
  flexray make SEED DOUBLES          the report of a cluster of eight nodes that is made from a seed
  flexray cold PARAMS POWER          who leads the startup of a cluster, and from when on
  flexray frame A|B FILE             the frame that the bytes of the file are, or its first fault
  flexray capture A|B FILE           the frames of a recording, up to the first fault
  flexray nm WIDTH FILE              the network management vectors of a recording, cycle by cycle

A microtick has 1000000 ticks. The manual page flexray(1) has the words, docs/FORMATS.md the files, the texts and the exit
statuses; flexlab does it in nanoseconds and ppm, and flexlab explain WORDS says why a file is refused.
";

// That of the file VERSION.
const VERSION: &[u8] = b"flexray 0.2.0\n";

/// The page that the words ask for, `help` or `version`, each alone, and none of other words. It takes
/// no memory.
#[tactic(auto, using(crate::proofs::Words::page_not_short, crate::proofs::Words::page_not_long))]
pub fn page_request(words: &[String]) -> Option<Page>
    ensures { IsPageRequest (texts words.now) result }
{
    match words {
        [word] => page_by_word(word.as_str()),
        _ => None,
    }
}

fn page_by_word(word: &str) -> Option<Page>
    ensures { IsPageRequest (word.now ∷ []) result }
{
    match word {
        "help" => Some(Page::Help),
        "version" => Some(Page::Version),
        _ => None,
    }
}

/// Writes a page. It loads no file. A failure comes where the sink counted a fault (`WriteFault`).
pub fn answer_page<O: Sink>(page: Page, out: &mut O) -> Result<(), Failure>
    ensures ends { (shelf : Shelved) → CommandEnds (page_command page)
        (around_of shelf shelf (O.state out.old) (O.state out.new)) result }
    ensures unwritten { EndingWritesNothing result → out.new ≡ out.old }
{
    match put_text(text_of(page), out) {
        Ok(()) => Ok(()),
        Err(_) => Err(Failure::WriteFault),
    }
}

#[tactic(auto, unfolding(crate::specs::Pages::help_text, crate::specs::Pages::help_lines, crate::specs::Pages::version_text))]
fn text_of(page: Page) -> &'static [u8]
    ensures { result.now ≡ page_text page }
{
    match page {
        Page::Help => HELP,
        Page::Version => VERSION,
    }
}
