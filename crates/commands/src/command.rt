//! The commands, and the words that ask for them.

ghost use Rattle.std.specs.Prelude.{◌≡◌, string_bytes, map, option_map};
ghost use Rattle.commands.specs.Command.{source_named};
ghost use Rattle.commands.specs.Commands.{command};
ghost use Rattle.commands.specs.Asked.{asked, source_of};

use crate::grid_size::GridSize;
use crate::{borders, check, grid, packet, replay, slice};

/// Where a map is read from.
#[derive(Clone, Copy, Drop)]
pub enum Source<'a> {
    /// The listing in the file of this name.
    Listing(&'a str),
    /// The topology in the file `map`, of which `object` is chosen, with the rules in the file `rules`.
    Topology {
        map: &'a str,
        object: &'a str,
        rules: &'a str,
    },
}

/// The source that a file and the words that may follow it name: an object and a file with rules, together or not at all.
pub fn source_named<'a>(file: &'a str, rest: &'a [String]) -> Option<Source<'a>>
    ensures { option_map source_of result ≡ source_named file.now (map string_bytes rest.now) }
{
    match rest {
        [] => Some(Source::Listing(file)),
        [object, rules] => Some(Source::Topology {
            map: file,
            object: object.as_str(),
            rules: rules.as_str(),
        }),
        _ => None,
    }
}

/// What is asked for.
#[derive(Clone, Copy, Drop)]
pub enum Command<'a> {
    /// The borders of a map after this step of its history.
    Borders { map: Source<'a>, step: u32 },
    /// Whether a map is a planar partition.
    Check { map: Source<'a> },
    /// The slice of a map after this step of its history.
    Slice { map: Source<'a>, step: u32 },
    /// The packet of a map from one step of its history to another.
    Packet { map: Source<'a>, from: u32, to: u32 },
    /// The slice that the packet in the one file leads to from the slice in the other.
    Replay { slice: &'a str, packet: &'a str },
    /// What the generated map of this size comes to.
    Grid { size: GridSize },
}

/// The command that the words are, or None where they are none.
#[tactic(auto, unfolding(crate::specs::Commands::command))]
pub fn parse_command(words: &[String]) -> Option<Command<'_>>
    ensures { asked result ≡ command (map string_bytes words.now) }
{
    let [name, words @ ..] = words else {
        return None;
    };
    let name = name.as_str();
    if name == "borders" {
        borders::parse(words)
    } else if name == "check" {
        check::parse(words)
    } else if name == "slice" {
        slice::parse(words)
    } else if name == "packet" {
        packet::parse(words)
    } else if name == "replay" {
        replay::parse(words)
    } else if name == "grid" {
        grid::parse(words)
    } else {
        None
    }
}
