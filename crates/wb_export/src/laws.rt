//! Laws of the definitions, each a function with no body.
ghost use Rattle.std.specs.Prelude.{◌≡◌, ◌≤◌, ℕ, ℤ, List, Option};
ghost use Rattle.wb_base.specs.AnswerList.{Answered};
ghost use Rattle.wb_model.specs.Opened.{Opened};
ghost use Rattle.wb_model.specs.Past.{Past, held, now};
ghost use Rattle.wb_model.specs.Requests.{Frame};
ghost use Rattle.wb_rows.specs.Held.{Held};
ghost use Rattle.wb_export.specs.Exports.{IsForecastOf, IsRegisterOf};
ghost use Rattle.wb_export.specs.Forecasts.{IsForecast, after_idle, day_at, without};
ghost use Rattle.wb_export.specs.declared.forecasts.Expiring.{Expiring as Row};

/// What is forecast for the day of a moment is what goes in a turn at it that changes nothing, and nothing else goes in such a turn. The moment is not
/// before the host's time.
pub fn a_forecast_is_what_goes()
    ensures { (past : Past Opened) (f : Frame) (found : List Row) → now past ≤ f.moment → IsForecast (day_at past f) (held past).plain.cases found → (held (after_idle past f)).plain.cases ≡ without found (held past).plain.cases }
{}

/// What is written over kept rows is the same with any other identity answers.
pub fn exports_tell_no_identity_answer()
    ensures register { (t u moment : ℕ) (h : Held) (sealed : ℕ → ℕ → Option Answered) (text : List ℕ) → IsRegisterOf t u moment h text → IsRegisterOf t u moment (record h { sealed = sealed }) text }
    ensures forecast { (t : ℕ) (day : ℤ) (h : Held) (sealed : ℕ → ℕ → Option Answered) (text : List ℕ) → IsForecastOf t day h text → IsForecastOf t day (record h { sealed = sealed }) text }
{}
