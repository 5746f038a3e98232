//! Laws of histories as play scripts.

ghost use Rattle.swarm_plays.specs.Laws.{JournalsArePlayScripts, PlaysPutWhatHistoriesClose};

use clip_script::{written_steps_are_lines, written_steps_are_read};
use number_words::natural_texts_are_read;
use plan_holds::steps_go_on;

/// The text of a legal history is a play script of the history's events.
pub fn journals_are_play_scripts()
    ensures { JournalsArePlayScripts }
{
    steps_go_on();
    natural_texts_are_read();
    written_steps_are_lines();
    written_steps_are_read();
}

/// A play of a history puts the frames that the history closes.
pub fn plays_put_what_histories_close()
    ensures { PlaysPutWhatHistoriesClose }
{
    steps_go_on();
}
