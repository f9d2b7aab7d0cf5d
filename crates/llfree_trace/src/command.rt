//! What a command line asks for.

ghost use Rattle.std.specs.Prelude.{◌≡◌, map};
ghost use Rattle.std.specs.String.{string_bytes};
ghost use Rattle.llfree_trace.specs.Command as Spec;

use crate::streams::Show;
use frame_text::number_below;

/// The sizes of a memory, as a command line names them.
#[derive(Clone, Copy, Debug)]
pub(crate) struct Sizes {
    pub(crate) children: u32,
    pub(crate) cores: u32,
    /// None where all frames of the last child exist.
    pub(crate) frames: Option<u32>,
}

/// What a command line asks for.
#[derive(Clone, Copy, Debug)]
pub(crate) enum Command {
    /// A run of the trace that is read, in a memory of these sizes, and what is shown of it.
    Run(Sizes, Show),
    /// The image that is read, rebuilt.
    Rebuild,
    /// The report of the image that is read.
    Report,
}

/// What the words ask for, without the program's name.
pub(crate) fn command_of(words: &[String]) -> Option<Command>
    ensures { result ≡ Spec.command_of (map string_bytes words.now) }
{
    match words.len() {
        1 => command_in(words[0].as_str()),
        3 => run_in(
            words[0].as_str(),
            sizes_in(words[1].as_str(), words[2].as_str()),
        ),
        4 => {
            let sizes = sizes_in(words[1].as_str(), words[2].as_str());
            run_in(words[0].as_str(), cut_sizes_in(sizes, words[3].as_str()))
        }
        _ => None,
    }
}

// A command of one word.
#[tactic(auto, unfolding(crate::specs::Command::command_in))]
fn command_in(word: &str) -> Option<Command>
    ensures { result ≡ Spec.command_in word.now }
{
    if word.as_bytes() == b"rebuild".as_slice() {
        Some(Command::Rebuild)
    } else if word.as_bytes() == b"report".as_slice() {
        Some(Command::Report)
    } else {
        None
    }
}

// A run in a memory of these sizes.
#[tactic(auto, unfolding(crate::specs::Command::run_in))]
fn run_in(word: &str, sizes: Option<Sizes>) -> Option<Command>
    ensures { result ≡ Spec.run_in word.now sizes }
{
    let show = show_in(word)?;
    let sizes = sizes?;
    Some(Command::Run(sizes, show))
}

// What the word of a run shows of it.
#[tactic(auto, unfolding(crate::specs::Command::show_in))]
fn show_in(word: &str) -> Option<Show>
    ensures { result ≡ Spec.show_in word.now }
{
    if word.as_bytes() == b"run".as_slice() {
        Some(Show::Answers)
    } else if word.as_bytes() == b"image".as_slice() {
        Some(Show::Picture)
    } else {
        None
    }
}

// The sizes that two words name.
#[tactic(auto, unfolding(crate::specs::Command::sizes_in))]
fn sizes_in(children: &str, cores: &str) -> Option<Sizes>
    ensures { result ≡ Spec.sizes_in children.now cores.now }
{
    let children = count_of(children)?;
    let cores = count_of(cores)?;
    Some(Sizes {
        children,
        cores,
        frames: None,
    })
}

// The sizes with the frames that a third word names.
#[tactic(auto, unfolding(crate::specs::Command::cut_sizes_in))]
fn cut_sizes_in(sizes: Option<Sizes>, frames: &str) -> Option<Sizes>
    ensures { result ≡ Spec.cut_sizes_in sizes frames.now }
{
    let sizes = sizes?;
    let frames = count_of(frames)?;
    Some(Sizes {
        children: sizes.children,
        cores: sizes.cores,
        frames: Some(frames),
    })
}

// A number of 1 to 9 digits.
#[tactic(auto, unfolding(crate::specs::Command::count_of))]
fn count_of(word: &str) -> Option<u32>
    ensures { result ≡ Spec.count_of word.now }
{
    if word.len() > 9 {
        return None;
    }
    match number_below(word.as_bytes(), 1_000_000_000) {
        Some(count) => Some(count as u32),
        None => None,
    }
}
