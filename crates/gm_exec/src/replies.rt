//! The road of an image: it is read and judged, and only where it is sound the graph is read, the arguments are judged and
//! the image runs.

ghost use Rattle.std.specs.Prelude.{◌≡◌, false, IfOk, map};
ghost use Rattle.gm_words.specs.Jobs.{AllAssign, AreRight};
ghost use Rattle.gm_input.specs.Halts.{IfSaid};
ghost use Rattle.gm_input.specs.Outside.{outside};
ghost use Rattle.gm_exec.specs.Replies.{AreTold, IsExecReply};
ghost use Rattle.gm_exec.specs.Runs.{IsUntold, audience};

use crate::images::image_of;
use crate::runs::run_text;
use gm_base::{Gate, NoMemory, Text};
use gm_files::{Files, Source};
use gm_input::{Answer, Halt, read_code, read_graph, settled};
use gm_observe::Observer;
use gm_words::Options;
use std::alloc::Global;
use std::sync::Wait;
use std::thread::Threads;

// How many bytes of an image's text are read at most: one more than a text may have, so that a longer one is seen.
const MOST_IMAGE: usize = 268_435_457;

// The steps of the run of an image, one after the other.
fn exec_steps<R: Threads + Wait + Sync, S: Source, F: Files, G: Gate>(
    rt: &R,
    alloc: Global,
    image: &str,
    graph: &str,
    words: &[Text],
    options: &Options,
    input: &mut S,
    files: &mut F,
    gate: &G,
    observers: &mut [Box<dyn Observer>],
) -> Result<Answer, Halt>
    requires assign { AllAssign words.now }
    requires right { AreRight options.now }
    ensures reply { IfSaid result (λ a. IsExecReply image.now graph.now words.now options.now
        (audience (map (λ o. says_of o) observers.old) (map (λ o. seen o) observers.old) (map (λ o. seen o) observers.new))
        (outside S.Source F.Files input.old files.old) (outside S.Source F.Files input.new files.new) a.text.items a.status) }
    ensures untold { IfSaid result (λ a. IsUntold a.status (map (λ o. seen o) observers.old) (map (λ o. seen o) observers.new)) }
    ensures unwatched { options.now.observe ≡ false → map (λ o. seen o) observers.new ≡ map (λ o. seen o) observers.old }
    ensures part { AreTold image.now graph.now words.now options.now
        (outside S.Source F.Files input.old files.old) (outside S.Source F.Files input.new files.new) (map (λ o. seen o) observers.old) (map (λ o. seen o) observers.new) }
    ensures same_ways { map (λ o. says_of o) observers.new ≡ map (λ o. says_of o) observers.old }
    ensures kept { F.told files.new ≡ F.told files.old }
{
    let front = read_code(alloc, image, graph, MOST_IMAGE, input, files)?;
    let sound = image_of(alloc, front.program)?;
    let text = read_graph(alloc, image, graph, front.ahead, front.ended, input, files)?;
    run_text(rt, alloc, &sound, words, options, text, gate, observers)
}

/// The reply for the run of an image over a graph, by their names. `words` are the words NAME=VALUE for the image's
/// scalar inputs; `options` say what the format of the graph text is, how many workers there are and how the nodes are dealt
/// out among them, how many turns may begin, and whether the observers are told of the run and report behind its listing.
/// Each worker enters the gate before it computes a superstep. The name `-` stands for standard input; where both names are
/// `-`, the graph stands behind the first line that is exactly `%%`.
///
/// The image is read and judged first: `image TooLong`, `image BadText at line L` or `image RULE at line L` is bad
/// input, and then nothing is read behind it. Then the graph is read and judged, then the words are, and then the image
/// runs. Where there is not enough memory the observers were told of the first supersteps that were taken, and some of them
/// may have been told of one more.
pub fn exec<R: Threads + Wait + Sync, S: Source, F: Files, G: Gate>(
    rt: &R,
    alloc: Global,
    image: &str,
    graph: &str,
    words: &[Text],
    options: &Options,
    input: &mut S,
    files: &mut F,
    gate: &G,
    observers: &mut [Box<dyn Observer>],
) -> Result<Answer, NoMemory>
    requires assign { AllAssign words.now }
    requires right { AreRight options.now }

    // What is said, by what stands under the names, and what the observers were told where the image ran.
    ensures reply { IfOk result (λ a. IsExecReply image.now graph.now words.now options.now
        (audience (map (λ o. says_of o) observers.old) (map (λ o. seen o) observers.old) (map (λ o. seen o) observers.new))
        (outside S.Source F.Files input.old files.old) (outside S.Source F.Files input.new files.new) a.text.items a.status) }

    // Where nothing ran, and where the run is not watched, they were told nothing.
    ensures untold { IfOk result (λ a. IsUntold a.status (map (λ o. seen o) observers.old) (map (λ o. seen o) observers.new)) }
    ensures unwatched { options.now.observe ≡ false → map (λ o. seen o) observers.new ≡ map (λ o. seen o) observers.old }

    // Whatever came of it, they were told a part of the notes of the run, from their front, or nothing.
    ensures part { AreTold image.now graph.now words.now options.now
        (outside S.Source F.Files input.old files.old) (outside S.Source F.Files input.new files.new) (map (λ o. seen o) observers.old) (map (λ o. seen o) observers.new) }

    ensures same_ways { map (λ o. says_of o) observers.new ≡ map (λ o. says_of o) observers.old }
    ensures kept { F.told files.new ≡ F.told files.old }
{
    let answer = exec_steps(
        rt, alloc, image, graph, words, options, input, files, gate, observers,
    );
    settled(answer)
}
