//! The run of an image over a graph text, with words for its arguments.

ghost use Rattle.std.specs.Prelude.{◌≡◌, false, map};
ghost use Rattle.gm_image.specs.Views.{program};
ghost use Rattle.gm_words.specs.Jobs.{AllAssign, AreRight};
ghost use Rattle.gm_input.specs.Halts.{IfSaid};
ghost use Rattle.gm_exec.specs.Answers.{IsTextAnswer};
ghost use Rattle.gm_exec.specs.Runs.{AreToldOver, IsUntold, audience};

use crate::programs::{inputs_of, shape_of};
use crate::watches::run_with;
use gm_base::{Gate, Text};
use gm_image::Sound;
use gm_input::{Answer, Halt, arguments, graph_of};
use gm_observe::Observer;
use gm_words::Options;
use std::alloc::Global;
use std::sync::Wait;
use std::thread::Threads;

/// The answer of an image over a graph text. `words` are the words NAME=VALUE for its scalar inputs; `options` say what
/// the format of the text is, how many workers there are and how the nodes are dealt out among them, how many turns may
/// begin, and whether the observers are told of the run and report.
///
/// The text stands for a graph with a column for each property among the inputs, or the answer is
/// `graph KIND at line L` or `graph TooLong`; the words give each scalar input a value, or it is `argument KIND NAME`,
/// both as bad input. Then it is the listing of what the image does, with its status.
pub fn run_text<R: Threads + Wait + Sync, G: Gate>(
    rt: &R,
    alloc: Global,
    image: &Sound,
    words: &[Text],
    options: &Options,
    text: Vec<u8>,
    gate: &G,
    observers: &mut [Box<dyn Observer>],
) -> Result<Answer, Halt>
    requires assign { AllAssign words.now }
    requires right { AreRight options.now }
    ensures answer { IfSaid result (λ a. IsTextAnswer (program image.now) words.now options.now
        (audience (map (λ o. says_of o) observers.old) (map (λ o. seen o) observers.old) (map (λ o. seen o) observers.new)) text.items a.text.items a.status) }
    ensures untold { IfSaid result (λ a. IsUntold a.status (map (λ o. seen o) observers.old) (map (λ o. seen o) observers.new)) }
    ensures unwatched { options.now.observe ≡ false → map (λ o. seen o) observers.new ≡ map (λ o. seen o) observers.old }
    ensures part { AreToldOver (program image.now) words.now options.now text.items (map (λ o. seen o) observers.old) (map (λ o. seen o) observers.new) }
    ensures same_ways { map (λ o. says_of o) observers.new ≡ map (λ o. says_of o) observers.old }
{
    let shape = shape_of(alloc, image.image())?;
    let graph = graph_of(alloc, options.format, text, &shape)?;
    let inputs = inputs_of(alloc, image.image())?;
    let args = arguments(alloc, &inputs, words, &graph)?;
    Ok(run_with(rt, alloc, image, &graph, &args, options, gate, observers)?)
}
