//! Laws of what kept rows and a setup open, and of scripts that are played from there, each a function with no body of its own.
ghost use Rattle.std.specs.Prelude.{◌≡◌, ℕ, List, Ok};
ghost use Rattle.wb_base.specs.declared.rows.Row.{Row};
ghost use Rattle.wb_model.specs.Past.{Past};
ghost use Rattle.wb_model.specs.Pasts.{AllOpened};
ghost use Rattle.wb_model.specs.Rows.{rows};
ghost use Rattle.wb_rows.specs.Judged.{judged};
ghost use Rattle.wb_rows.specs.Left.{left};
ghost use Rattle.wb_tables.specs.Standing.{Standing, hosts_of};
ghost use Rattle.wb_desk.specs.Desks.{IsDesk};
ghost use Rattle.wb_desk.specs.Turns.{StandsFor};
ghost use Rattle.wb_desk.specs.Openings.{IsOpenedBy};
ghost use Rattle.wb_promise.specs.Promises.{AllAsPromised};

use wb_model::{
    absence_over_openings, absence_over_scripts, alike_openings_get_the_same_replies,
    alike_scripts_get_the_same_replies, an_opening_is_told_by_its_tables, losses_are_told,
};
use wb_rows::what_hosts_leave_is_read;
use wb_wire::one_reading;

/// Kept rows and a setup open one past: two runs over the same begin alike.
pub fn kept_rows_and_a_setup_open_one_past()
    ensures { (loaded : List Row) (setup : List ℕ) (start other : Past AllOpened) → IsOpenedBy loaded setup start → IsOpenedBy loaded setup other → start ≡ other }
{
    an_opening_is_told_by_its_tables();
}

/// A host that was opened over kept rows with a setup plays each script as promised.
pub fn each_script_is_as_promised()
    ensures { (loaded : List Row) (setup : List ℕ) (start : Past AllOpened) → IsOpenedBy loaded setup start → AllAsPromised loaded setup start }
{
    one_reading();
    an_opening_is_told_by_its_tables();
    losses_are_told();
    alike_scripts_get_the_same_replies();
    alike_openings_get_the_same_replies();
    absence_over_scripts();
    absence_over_openings();
}

/// The rows of the hosts that a desk stands for are refused by no rule, and are read as what they hold: so a host starts again over what
/// it left.
pub fn a_desk_leaves_rows_that_are_read()
    ensures { (desk : Standing) (past : Past AllOpened) → IsDesk desk → StandsFor (hosts_of desk) past → judged (rows past) ≡ Ok (left past) }
{
    what_hosts_leave_is_read();
}
