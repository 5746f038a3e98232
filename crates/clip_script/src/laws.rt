//! What is written is read.

ghost use Rattle.std.specs.Prelude.{◌≡◌, ℕ, ◌<◌, ◌++◌, ◌∷◌, List, Ok, Some, false};
ghost use Rattle.std.specs.List.{list_any};
ghost use Rattle.plan_model.specs.Limits.{IsLevelCount};
ghost use Rattle.plan_model.specs.declared.events.Event.{Event};
ghost use Rattle.clip_script.specs.Lines.{is_skipped, lines};
ghost use Rattle.clip_script.specs.Ranges.{IsAsked};
ghost use Rattle.clip_script.specs.Scripts.{Play, play_of};
ghost use Rattle.clip_script.specs.Steps.{step_of};
ghost use Rattle.clip_script.specs.Texts.{event_text, read_pass, step_line};
ghost use Rattle.clip_script.specs.declared.step.Step.TheVariants.{Book};
ghost use Rattle.clip_script.specs.Views.{asks_view, is_view};

use number_words::{natural_texts_are_read, whole_texts_are_read};

/// The written text of an event is read as that event of that pass, or of pass 0 for a move or a publication, in every
/// script with levels for which its numbers are in range.
pub fn written_steps_are_read()
    ensures { (levels p : ℕ) (event : Event) → IsLevelCount levels → IsAsked levels p event →
        step_of levels (event_text p event) ≡ Some (Book (read_pass p event) event) }
{
    natural_texts_are_read();
    whole_texts_are_read();
}

/// A script that is read has a step that asks for a view exactly where a line of it does.
pub fn views_are_asked_for_by_lines()
    ensures { (text : List ℕ) (play : Play) → play_of text ≡ Ok play →
        list_any is_view play.steps ≡ list_any asks_view (lines text) }
{}

/// A written line is a line of the script, which isn't skipped, and the lines behind it follow.
pub fn written_steps_are_lines()
    ensures lines { (levels p : ℕ) (event : Event) (rest : List ℕ) → IsLevelCount levels → IsAsked levels p event →
        lines (step_line p event ++ rest) ≡ event_text p event ∷ lines rest }
    ensures spoken { (p : ℕ) (event : Event) → is_skipped (event_text p event) ≡ false }
{}
