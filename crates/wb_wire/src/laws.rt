//! Laws of the wire's definitions, each a function with no body of its own.
ghost use Rattle.std.specs.Prelude.{◌≡◌, ◌++◌, ℕ, List, Bool, true};
ghost use Rattle.wb_model.specs.declared.command.Asked.{Asked};
ghost use Rattle.wb_model.specs.declared.wire.ScriptFrame.{ScriptFrame};
ghost use Rattle.wb_model.specs.FrameTexts.{frame_text, IsFrame};
ghost use Rattle.wb_model.specs.Commands.{fits};
ghost use Rattle.wb_model.specs.Readings.{Reading, Asks, Reads, Closes};
ghost use Rattle.wb_wire.specs.SetupText.{setup_text, IsSetup};

use wb_form::good_forms_are_those_that_are_read;
use wb_model::answers_that_are_read_stand_in_order;

/// No frame's text begins another's, so a text parts into frames in one way.
pub fn one_frame()
    ensures { (f g : ScriptFrame) (x y : List ℕ) → IsFrame f → IsFrame g → frame_text f ++ x ≡ frame_text g ++ y → (f ≡ g) × (x ≡ y) }
{}

/// No setup's text begins another's, so an input begins with one setup alone.
pub fn one_setup()
    ensures { (a b x y : List ℕ) → IsSetup a → IsSetup b → setup_text a ++ x ≡ setup_text b ++ y → (a ≡ b) × (x ≡ y) }
{}

/// Bytes are read as one thing alone, and their head asks for one closing.
pub fn one_reading()
    ensures reading { (bytes : List ℕ) (a b : Reading) → Reads bytes a → Reads bytes b → a ≡ b }
    ensures closing { (bytes : List ℕ) (a b : Bool) → Closes bytes a → Closes bytes b → a ≡ b }
{}

/// What is asked is in the ranges of requests.
pub fn what_is_asked_fits()
    ensures { (bytes : List ℕ) (asked : Asked) → Reads bytes (Asks asked) → fits asked ≡ true }
{
    good_forms_are_those_that_are_read();
    answers_that_are_read_stand_in_order();
}
