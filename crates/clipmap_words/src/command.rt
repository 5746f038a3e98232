//! The commands.
ghost use Rattle.std.specs.Prelude.{◌≡◌, map, string_bytes, IfSome};
ghost use Rattle.std.specs.Option.{option_map};
ghost use Rattle.clipmap_words.specs.Commands.{IsInRange, command_of, view_of};

use crate::check::{CheckWords, read_check};
use crate::demo::{DemoWords, read_demo};
use crate::fly::{FlyWords, read_fly};
use crate::frame::{FrameWords, read_frame};
use crate::info::{InfoWords, read_info};
use crate::pack::{PackWords, read_pack};
use crate::pack_by::{PackByWords, read_pack_by};
use crate::play::{PlayWords, read_play};

/// A command, as its words give it.
#[derive(Clone, Copy)]
pub enum Command<'a> {
    /// The verdict on a frame's text: `check FILE`.
    Check(CheckWords<'a>),
    /// A flight over a terrain of its own, of which one line tells: `demo SEED`.
    Demo(DemoWords),
    /// A flight in rounds of so many workers over tiles or a store: `fly N SCRIPT OUT INPUT+`.
    Fly(FlyWords<'a>),
    /// One frame of whole windows: `frame K L X Y OUT INPUT+`.
    Frame(FrameWords<'a>),
    /// What is known of tiles or of a store: `info INPUT+`.
    Info(InfoWords<'a>),
    /// Tiles to an exact store: `pack L OUT INPUT+`.
    Pack(PackWords<'a>),
    /// Tiles or a store to a store by a step: `packq L Q OUT INPUT+`.
    PackBy(PackByWords<'a>),
    /// A script's steps over tiles or a store: `play SCRIPT OUT INPUT+`.
    Play(PlayWords<'a>),
}

/// The command that the words are: those after the program's name. `None` exactly where they are no command.
pub fn read_words<'a>(words: &'a [String]) -> Option<Command<'a>>
    ensures value { option_map view_of result ≡ command_of (map string_bytes words.now) }
    ensures in_range { IfSome result (λ command. IsInRange (view_of command)) }
{
    let [name, words @ ..] = words else {
        return None;
    };
    if name.as_str() == "check" {
        return read_check(words).map(Command::Check);
    }
    if name.as_str() == "demo" {
        return match read_demo(words) {
            Some(demo) => Some(Command::Demo(demo)),
            None => None,
        };
    }
    if name.as_str() == "fly" {
        return read_fly(words).map(Command::Fly);
    }
    if name.as_str() == "frame" {
        return read_frame(words).map(Command::Frame);
    }
    if name.as_str() == "info" {
        return read_info(words).map(Command::Info);
    }
    if name.as_str() == "pack" {
        return read_pack(words).map(Command::Pack);
    }
    if name.as_str() == "packq" {
        return read_pack_by(words).map(Command::PackBy);
    }
    if name.as_str() == "play" {
        return read_play(words).map(Command::Play);
    }
    None
}
