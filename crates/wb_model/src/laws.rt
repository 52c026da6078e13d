//! Laws of the definitions, each a function with no body.
ghost use Rattle.std.specs.Prelude.{◌≡◌, ◌+◌, ◌≤◌, ◌<◌, if◌then◌else◌, filter, map, ℕ, List, false, true, Some};
ghost use Rattle.serde_json.specs.Data.{Data};
ghost use Rattle.serde_json.specs.Find.{get};
ghost use Rattle.serde_json.specs.Read.{read};
ghost use Rattle.std.specs.Prelude.{is_some, length, None, ◌++◌, ◌∷◌, []};
ghost use Rattle.wb_model.specs.declared.entry.Actor.{Actor};
ghost use Rattle.wb_model.specs.declared.entry.Entry.{Entry};
ghost use Rattle.wb_model.specs.declared.registry.ContextItem.{ContextItem};
ghost use Rattle.wb_model.specs.declared.registry.FormItem.{FormItem};
ghost use Rattle.wb_model.specs.Access.{user_by};
ghost use Rattle.wb_model.specs.Alike.{is_refused, HostsAlike, LaterAlike, SubmissionsAlike, is_reader};
ghost use Rattle.wb_model.specs.Changes.{TurnContext, Refused};
ghost use Rattle.wb_model.specs.Refused.{host_unchanged, hosts_unchanged};
ghost use Rattle.wb_model.specs.declared.body.Told.{Told};
ghost use Rattle.wb_model.specs.Host.{ruling_at, Tables, Host, purge_at, reply_to, host_after, tables_after};
ghost use Rattle.wb_model.specs.Tenants.{tenant_at, one, has_id, refused_in, OnTenant, Tenancy, Hosts, AllHostsAlike, OneLaterAlike, is_report_reader, hosts_reply, hosts_after, hosts_lost};
ghost use Rattle.wb_model.specs.Scripts.{purges, play, play_asked, Loss, Place, ArePossible, script_replies, past_after};
ghost use Rattle.std.specs.Prelude.{find, max};
ghost use Rattle.wb_model.specs.Tables.{Registry, lasts};
ghost use Rattle.wb_model.specs.Requests.{Outcome, Frame};
ghost use Rattle.wb_model.specs.AnswerRanges.{are_answers};
ghost use Rattle.wb_model.specs.Bodies.{answers};
ghost use Rattle.wb_model.specs.Commands.{fits_command};
ghost use Rattle.wb_model.specs.Submissions.{submission_entry};
ghost use Rattle.wb_model.specs.Doings.{Doing, doing_fault};
ghost use Rattle.wb_model.specs.Legal.{Reckoning, reckoning, ascends, are_readers, doing_by, is_first, is_next, is_legal, last_at, AsksRightly, IsSound, AreLegalIn};
ghost use Rattle.wb_model.specs.declared.command.Asked.{Asked};
ghost use Rattle.wb_model.specs.Opened.{Ascend, HasLegalTrails, is_numbering, AreOrdered, AreOpened, Opened};
ghost use Rattle.wb_model.specs.Trails.{has_identity, dialogue, dialogue_places, remark_places, remarks_at};
ghost use Rattle.wb_base.specs.AnswerList.{Answered};
ghost use Rattle.wb_model.specs.declared.event.Event.{Event};
ghost use Rattle.wb_model.specs.Absence.{begins_here, AnswersAfterWithout, AnswersWithout, AreApart, AllDrawAnother, DrawOthersAfter, is_purged, without, gapped, all_gapped, first_last, BeginsAt, replies, past_without, is_purged_after, holds, NoneIsLost, HoldsLive, EndsWithout, IsNotLive, SubmitsTo};
ghost use Rattle.wb_model.specs.Past.{registry, numbering, held, sealed, trail, last, live, is_lost, Past, Opening, Turn, now, live_reports, recent, standing_sessions, tables};
ghost use Rattle.wb_model.specs.PastTurns.{verdict_at, reply_at, at_frame, tables_then, tables_turned};
ghost use Rattle.wb_model.specs.Readable.{AreReadable, OpensReadable, AreRanged, AreTimely, are_stored, is_count, AreStoredCases};
ghost use Rattle.wb_model.specs.Pasts.{AllOpened, part, tenants, has_tenant, time, standing_hosts, reply_in, with_turn, with_loss};
ghost use Rattle.std.specs.List.Sorted.{IsStrictlySortedBy};
ghost use Rattle.wb_base.specs.KeptRows.{key_cmp, key_of, all_changed};
ghost use Rattle.wb_base.specs.declared.form.Format.{Format};
ghost use Rattle.wb_model.specs.Rows.{rows, rows_but, rows_in, rows_of, converted};
ghost use Rattle.wb_model.specs.declared.wire.ScriptFrame.{ScriptFrame};
ghost use Rattle.wb_model.specs.Playing.{ArePlacesOf, AreLossesTold};
ghost use Rattle.wb_model.specs.Drawn.{numbers_of, is_accepted};
ghost use Rattle.wb_model.specs.Refusals.{turns_spent, is_turns_spent};
ghost use Rattle.wb_model.specs.declared.registry.Lists.{Lists};
ghost use Rattle.wb_model.specs.SetUps.{AreSetUp, tenant_ids, has_tenant as has_tenant_in};
ghost use Rattle.wb_model.specs.KeptRules.{AreKept};
ghost use Rattle.wb_model.specs.Openings.{registry_of, empty_tables};
ghost use Rattle.wb_model.specs.ByVerdicts.{AreByVerdicts, AskInRange};
ghost use Rattle.wb_model.specs.ScriptsAlike.{PastsAlike, PlacesAlike, AllPlacesAlike, hidden_replies, AnswersAlike};
ghost use Rattle.wb_model.specs.OtherOpenings.{OpeningsAlike, IsOpenedWithout, StartTogether, AnswersOverBoth, AnswersAfterOverBoth, EndsOverBoth, HoldsOverBoth, HasRowsWithout, LeaveAlike, LeaveWithout, LeaveWithoutAfter};
ghost use Rattle.wb_model.specs.Reopened.{left_time, left_tables, left_hosts, reopening, without_sessions};

/// A turn does not tell two hosts apart that differ in the identity answers of report r alone.
///
/// Its two requests are equal, or two valid identities that r's reporter gives. The replies are equal, but where one of
/// r's readers asks; and the hosts after the turn differ in r's identity answers alone.
pub fn a_turn_keeps_hosts_alike()
    ensures reply { (r : ℕ) (h k : Host) (a b : Frame) → HostsAlike r h k → LaterAlike r h a b → is_reader r h a ≡ false → reply_to h a ≡ reply_to k b }
    ensures host { (r : ℕ) (h k : Host) (a b : Frame) → HostsAlike r h k → LaterAlike r h a b → HostsAlike r (host_after h a) (host_after k b) }
{}

/// The same on the host of all tenants, for report r of tenant t.
pub fn a_turn_keeps_all_hosts_alike()
    ensures reply { (t r : ℕ) (h k : Hosts) (a b : Frame) → AllHostsAlike t r h k → OneLaterAlike t r h a b → is_report_reader t r h a ≡ false → hosts_reply h a ≡ hosts_reply k b }
    ensures hosts { (t r : ℕ) (h k : Hosts) (a b : Frame) → AllHostsAlike t r h k → OneLaterAlike t r h a b → AllHostsAlike t r (hosts_after h a) (hosts_after k b) }
{}

/// Two submissions that are both valid, with equal public answers and marks, get the same reply; and the hosts after
/// them differ in the identity answers of the report so submitted alone.
pub fn a_submission_makes_hosts_alike()
    ensures reply { (h : Host) (a b : Frame) → SubmissionsAlike (purge_at h a).plain a b → reply_to h a ≡ reply_to h b }
    ensures host { (h : Host) (a b : Frame) → SubmissionsAlike (purge_at h a).plain a b → HostsAlike (h.tables.plain.numbering.last + 1) (host_after h a) (host_after h b) }
{}

/// A refused request leaves the host as it was but for its time, its turn number and what fell due. Its reply is the refusal.
///
/// So it is of the hosts that stand for a past (`past`); and where no report falls due at the turn, the rows are as they were (`rows`).
pub fn a_refusal_changes_nothing_else()
    ensures reply { (h : Host) (f : Frame) (told : Told) → ruling_at h f ≡ Refused told → reply_to h f ≡ told }
    ensures host { (h : Host) (f : Frame) (told : Told) → ruling_at h f ≡ Refused told → host_after h f ≡ host_unchanged h f }
    ensures hosts { (h : Hosts) (f : Frame) → OnTenant (tenant_at f) h.list (λ x. is_refused (ruling_at (one h.turns h.now x) f) ≡ true) → hosts_after h f ≡ hosts_unchanged h f }
    ensures past { (past : Past AllOpened) (f : Frame) → refused_in (standing_hosts past) f (find (has_id (tenant_at f)) (standing_hosts past).list) ≡ true → standing_hosts (with_turn past f) ≡ hosts_unchanged (standing_hosts past) f }
    ensures rows { (past : Past AllOpened) (f : Frame) → refused_in (standing_hosts past) f (find (has_id (tenant_at f)) (standing_hosts past).list) ≡ true → purges past (max (time past) f.moment) ≡ false → rows (with_turn past f) ≡ rows past }
{}

/// An opening is told by its moment, its tenants and their tables: two that have the same are one.
pub fn an_opening_is_told_by_its_tables()
    ensures { (o p : AllOpened) → o.at ≡ p.at → o.tenants ≡ p.tenants → ((t : ℕ) → o.tables t ≡ p.tables t) → o ≡ p }
{}

/// Scripts that differ in one report's valid identity answers alone get the same replies, but at the places where one of
/// that report's readers asks.
///
/// This holds over every past, and wherever turns are lost at the same places of both scripts.
///
/// The hosts at the end differ in those identity answers alone, and so do their rows.
pub fn alike_scripts_get_the_same_replies()
    ensures hosts { (i t r : ℕ) (past : Past AllOpened) (places others : List Place) → PlacesAlike i t r past places others → AllHostsAlike t r (standing_hosts (past_after past places)) (standing_hosts (past_after past others)) }
    ensures rows { (i t r : ℕ) (past : Past AllOpened) (places others : List Place) → PlacesAlike i t r past places others → rows_but t r (rows (past_after past places)) ≡ rows_but t r (rows (past_after past others)) }
    ensures replies { (i t r : ℕ) (past : Past AllOpened) (places others : List Place) → PlacesAlike i t r past places others → hidden_replies t r past places (script_replies past places) ≡ hidden_replies t r past places (script_replies past others) }
{}

/// Hosts that differ in one report's valid identity answers alone, whenever that report was submitted, get the same replies to scripts
/// that are the same but for the identities that its reporter gives later: but at the places where one of that report's readers asks.
///
/// So do two openings that differ in those answers alone, of which both have some or neither has; and so it is of one script over both
/// (`same`). At the end the hosts differ in those answers alone, and so do their rows, and the openings that are made of what they leave:
/// so it holds over each later start too.
///
/// This holds wherever turns are lost at the same places of both scripts.
pub fn alike_openings_get_the_same_replies()
    ensures openings { (t r : ℕ) (o p : AllOpened) → OpeningsAlike t r o p → PastsAlike t r (Opening o) (Opening p) }
    ensures marks { (t r : ℕ) (o p : AllOpened) → OpeningsAlike t r o p → is_some ((o.tables t).sealed r) ≡ is_some ((p.tables t).sealed r) }
    ensures replies { (t r : ℕ) (past other : Past AllOpened) (places others : List Place) → PastsAlike t r past other → AllPlacesAlike t r past places others → AnswersAlike t r past places other others }
    ensures same { (t r : ℕ) (past other : Past AllOpened) (places : List Place) → PastsAlike t r past other → AnswersAlike t r past places other places }
    ensures hosts { (t r : ℕ) (past other : Past AllOpened) (places others : List Place) → PastsAlike t r past other → AllPlacesAlike t r past places others → PastsAlike t r (past_after past places) (past_after other others) }
    ensures rows { (t r : ℕ) (past other : Past AllOpened) → PastsAlike t r past other → rows_but t r (rows past) ≡ rows_but t r (rows other) }
    ensures reopened { (t r : ℕ) (past other : Past AllOpened) → PastsAlike t r past other → LeaveAlike t r past other }
{}

/// The hosts that stand for a past answer as the past says, and then stand for the past with that turn, made or lost.
///
/// This holds of every opening and of every list of turns.
pub fn hosts_stand_for_their_past()
    ensures reply { (past : Past AllOpened) (f : Frame) → hosts_reply (standing_hosts past) f ≡ reply_in past f }
    ensures turn { (past : Past AllOpened) (f : Frame) → hosts_after (standing_hosts past) f ≡ standing_hosts (with_turn past f) }
    ensures loss { (past : Past AllOpened) (f : Frame) → hosts_lost (standing_hosts past) f ≡ standing_hosts (with_loss past f) }
{}

/// The tables of one tenant's past with one more turn are one step on its tables.
pub fn a_turn_is_a_step_on_the_tables()
    ensures { (t : ℕ) (past : Past Opened) (f : Frame) → tables_turned t past f ≡ tables_after (tables_then past f) (at_frame past f) f.asked }
{}

/// The sessions that stand by the past's own words are those that stood just after its last turn, where they still last.
///
/// Each turn leaves what stood just before it, less what it ended, and the session that it made.
pub fn sessions_stand_turn_by_turn()
    ensures { (past : Past Opened) (time : ℕ) → now past ≤ time → filter (lasts time (live_reports past time)) (recent past) ≡ standing_sessions past time }
{}

/// What is done on a report, and is not refused, is a legal entry after its trail, whatever the trail is; and so is the
/// entry with which a submission begins its trail. A legal trail stays legal with such an entry.
pub fn what_is_not_refused_is_legal()
    ensures doing { (days : Reckoning) (last time : ℕ) (es : List Entry) (by : Actor) (d : Doing) → last ≤ time → AsksRightly days time by d → doing_fault es (user_by by) d ≡ None → is_next days last es (doing_by days time by es d) ≡ true }
    ensures first { (at : TurnContext) (g : Registry) (o : Outcome) (c : ContextItem) (f : FormItem) → 1 ≤ c.retention → c.retention ≤ 3_650 → are_readers c.recipients ≡ true → is_first (reckoning g.settings) (submission_entry at g o c f) ≡ true }
    ensures more { (days : Reckoning) (es : List Entry) (e : Entry) → is_legal days es ≡ true → is_next days (last_at 0 es) es e ≡ true → is_legal days (es ++ e ∷ []) ≡ true }
{}

/// A turn over purged tables, whose registry is in its ranges, keeps the trails of all reports legal, and the registry in
/// its ranges.
pub fn a_turn_keeps_trails_legal()
    ensures trails { (t : Tables) (at : TurnContext) (a : Asked) → fits_command a.command ≡ true → IsSound t.plain.registry → Ascend 0 t.plain.cases → HasLegalTrails at.time t → AreLegalIn t.plain.registry at.time (tables_after t at a).plain.cases }
    ensures registry { (t : Tables) (at : TurnContext) (a : Asked) → fits_command a.command ≡ true → IsSound t.plain.registry → IsSound (tables_after t at a).plain.registry }
{}

/// What the rules of a setup let through is what a host may be opened with, for each tenant; and so is what the rules of
/// kept rows let through.
pub fn setups_and_kept_rows_make_openings()
    ensures setups { (lists : Lists) → AreSetUp lists → (t : ℕ) → AreOpened 0 (empty_tables (registry_of lists t)) }
    ensures tenants { (lists : Lists) → AreSetUp lists → ascends (tenant_ids lists) ≡ true }
    ensures kept_rows { (at : ℕ) (lists : Lists) (tenant : ℕ) (t : Tables) → AreKept at lists tenant t → AreOpened at t }
{}

/// What a host leaves of a past that verdicts made is what a host may be opened with again: all that it holds but its
/// sessions, at the greatest moment of the entries and draws that are kept, which is not after the past's time and may be before it.
///
/// The hosts that stand for that opening made no turn, and their rows are those that were left.
pub fn a_host_opens_again()
    ensures opened { (past : Past AllOpened) → ((t : ℕ) → AreByVerdicts t (part t past)) → (t : ℕ) → AreOpened (left_time past) (left_tables past t) }
    ensures time { (past : Past AllOpened) → ((t : ℕ) → AreByVerdicts t (part t past)) → left_time past ≤ time past }
    ensures tenants { (past : Past AllOpened) → ascends (tenants past) ≡ true }
    ensures hosts { (past : Past AllOpened) (ids : ascends (tenants past) ≡ true) (sound : (t : ℕ) → AreOpened (left_time past) (left_tables past t)) → standing_hosts (Opening (reopening past ids sound)) ≡ left_hosts past }
    ensures rows { (past : Past AllOpened) (ids : ascends (tenants past) ≡ true) (sound : (t : ℕ) → AreOpened (left_time past) (left_tables past t)) → rows (Opening (reopening past ids sound)) ≡ rows past }
{}

/// The users, form versions and contexts of a tenant stand in the order of their numbers, each once, in each past.
pub fn what_is_set_stands_in_order()
    ensures { (past : Past Opened) → AreOrdered (registry past) }
{}

/// The numbering of each past is one that draws may have left: none, or some, of which some are of the last draw's day.
pub fn a_numbering_is_left_by_draws()
    ensures { (past : Past Opened) → is_numbering (numbering past) ≡ true }
{}

/// The live trails of a past that verdicts made are legal at each moment from its time on, and so are those that its host
/// holds; and its registry is in its ranges.
///
/// A script whose requests are in their ranges makes such a past from such a past, and an opening is one.
pub fn verdicts_keep_trails_legal()
    ensures live { (t time : ℕ) (past : Past Opened) → AreByVerdicts t past → now past ≤ time → AreLegalIn (registry past) time (live_reports past time) }
    ensures held { (t : ℕ) (past : Past Opened) → AreByVerdicts t past → AreLegalIn (registry past) (now past) (held past).plain.cases }
    ensures registry { (t : ℕ) (past : Past Opened) → AreByVerdicts t past → IsSound (registry past) }
    ensures scripts { (t : ℕ) (past : Past AllOpened) (places : List Place) → AskInRange places → AreByVerdicts t (part t past) → AreByVerdicts t (part t (past_after past places)) }
{}

/// What the host of each past that verdicts made holds is such that its rows are read back, where what it was opened with was:
/// what is set up and what trails name, answers, and the ranges of all that is stored.
///
/// So are setups, and kept rows whose texts and counts are in their ranges. A script makes such a past from such a past, and
/// ends at a moment that a request may have where its requests and the past's time are at such.
pub fn hosts_hold_what_is_read_back()
    ensures held { (t : ℕ) (past : Past Opened) → OpensReadable t past → AreByVerdicts t past → AreRanged t past → AreReadable t (held past) }
    ensures left { (t : ℕ) (past : Past Opened) → OpensReadable t past → AreByVerdicts t past → AreRanged t past → AreReadable t (without_sessions (held past)) }
    ensures scripts { (t : ℕ) (past : Past AllOpened) (places : List Place) → AreRanged t (part t past) → AreRanged t (part t (past_after past places)) }
    ensures moments { (past : Past AllOpened) (places : List Place) → AreTimely places → time past ≤ 99_999_999_999 → time (past_after past places) ≤ 99_999_999_999 }
    ensures openings { (t : ℕ) (past : Past AllOpened) (places : List Place) → OpensReadable t (part t past) → OpensReadable t (part t (past_after past places)) }
    ensures setups { (lists : Lists) (t : ℕ) → AreSetUp lists → are_stored lists ≡ true → has_tenant_in lists t ≡ true → AreReadable t (empty_tables (registry_of lists t)) }
    ensures kept_rows { (at : ℕ) (lists : Lists) (t : ℕ) (x : Tables) → AreKept at lists t x → are_stored lists ≡ true → has_tenant_in lists t ≡ true → is_count x.plain.numbering.last ≡ true → AreStoredCases x → AreReadable t x }
{}

/// Answers in JSON that was read stand in byte order of their fields' ids, each in its range: those that a whole value is, and
/// those under one of its keys.
pub fn answers_that_are_read_stand_in_order()
    ensures whole { (text : List ℕ) (value : Data) (a : Answered) → read text ≡ Some value → answers value ≡ Some a → are_answers a ≡ true }
    ensures member { (text key : List ℕ) (value under : Data) (a : Answered) → read text ≡ Some value → get key value ≡ Some under → answers under ≡ Some a → are_answers a ≡ true }
{}

/// A report has identity answers exactly where its trail says that some were given, with it or later.
pub fn identity_answers_stand_where_the_trail_says_so()
    ensures { (past : Past Opened) (r : ℕ) → is_some (sealed past r) ≡ has_identity (trail past r) }
{}

/// The verdict on a request, its reply and the tables after its turn are told by the tables at its time, that time, the
/// turn's number, the words and the request.
pub fn a_turn_is_told_by_the_tables()
    ensures verdict { (past other : Past Opened) (f : Frame) → at_frame past f ≡ at_frame other f → tables_then past f ≡ tables_then other f → verdict_at past f ≡ verdict_at other f }
    ensures reply { (past other : Past Opened) (f : Frame) → at_frame past f ≡ at_frame other f → tables_then past f ≡ tables_then other f → reply_at past f ≡ reply_at other f }
    ensures tables { (t : ℕ) (past other : Past Opened) (f : Frame) → at_frame past f ≡ at_frame other f → tables_then past f ≡ tables_then other f → tables_turned t past f ≡ tables_turned t other f }
{}

/// The tables of the past in which the submission of report r only drew a number are the tables without r, from the
/// past's time on.
pub fn a_gapped_past_lacks_the_report()
    ensures { (r time : ℕ) (past : Past Opened) → now past ≤ time → first_last past < r → tables (gapped r past) time ≡ without r (tables past time) }
{}

/// After a turn that was not lost, where report r of tenant t is not live, the hosts stand for the past in which its
/// submission only drew a number.
///
/// So they do after each request's turn.
pub fn absence_on_one_past()
    ensures event { (t r : ℕ) (e : Event) (past : Past AllOpened) → is_lost e.what ≡ false → first_last (part t past) < r → IsNotLive t r (Turn e past) → standing_hosts (all_gapped t r (Turn e past)) ≡ standing_hosts (Turn e past) }
    ensures turn { (t r : ℕ) (past : Past AllOpened) (f : Frame) → first_last (part t past) < r → IsNotLive t r (with_turn past f) → standing_hosts (all_gapped t r (with_turn past f)) ≡ standing_hosts (with_turn past f) }
{}

/// A place of a script at which a submission is answered 201 begins a report under the next number of its tenant.
pub fn a_submission_begins_a_report()
    ensures { (past : Past AllOpened) (p : Place) (t : ℕ) → SubmitsTo t p → (play past p).reply.told.status ≡ 201 → begins_here t (last (part t past) + 1) past p p.reading ≡ true }
{}

/// Where place i of a script is an accepted submission to tenant t that draws the number r, the replies are those of the
/// script in which it only drew a number, but at the later places where the report is live. From the place on at which the
/// report is purged all replies are. Where the hosts at the end do not hold the report, they are the same; so it is once it is
/// purged, and where no place is lost and the report, expired or deleted, is not live at the end.
///
/// This holds over every past whose live reports have different receipts, as those of an opening do, and wherever turns are
/// lost at the same places of both scripts. No later submission to the tenant draws the report's receipt while it is live.
pub fn absence_over_scripts()
    ensures opening { (t : ℕ) (o : AllOpened) → AreApart t (Opening o) }
    ensures live { (i t r : ℕ) (past : Past AllOpened) (places : List Place) → AreApart t past → BeginsAt i t r past places → DrawOthersAfter i t r past places → AnswersWithout i t r past places }
    ensures replies { (i t r : ℕ) (past : Past AllOpened) (places : List Place) → AreApart t past → BeginsAt i t r past places → DrawOthersAfter i t r past places → AnswersAfterWithout i t r past places }
    ensures hosts { (i t r : ℕ) (past : Past AllOpened) (places : List Place) → AreApart t past → BeginsAt i t r past places → DrawOthersAfter i t r past places → holds t r (past_after past places) ≡ false → EndsWithout i t past places }
    ensures purged { (i t r : ℕ) (past : Past AllOpened) (places : List Place) → AreApart t past → BeginsAt i t r past places → DrawOthersAfter i t r past places → is_purged_after i t r past places ≡ true → holds t r (past_after past places) ≡ false }
    ensures gone { (i t r : ℕ) (past : Past AllOpened) (places : List Place) → BeginsAt i t r past places → NoneIsLost places → IsNotLive t r (past_after past places) → holds t r (past_after past places) ≡ false }
{}

/// A report that a host holds when it is opened, however it came there: where a script draws its receipt for no later submission to its
/// tenant while it is live, the replies are those over the opening without it, but at the places where it is live. From the place on at
/// which it is purged all replies are, and then the hosts at the end are the same. Where the hosts at the end do not hold it, what they hold
/// is the same; and where nothing is lost, they hold no report that is not live, if those at the start did not.
///
/// Each opening has one without the report (`there`). What is left by the two hosts are two such openings again, whether the report is
/// purged by then or not (`again`), and so are what is left by a script in which the report is submitted, and by the script in which that
/// submission only drew a number (`first`): so absence holds over any number of starts. The rows that the second keeps are those of the
/// first without the report's (`rows`, `first_rows`).
///
/// This holds wherever turns are lost at the same places, and where both are opened at one moment or the script is not before either.
pub fn absence_over_openings()
    ensures there { (t r : ℕ) (o : AllOpened) → r ≤ (o.tables t).plain.numbering.last → (p : AllOpened) × IsOpenedWithout t r o p }
    ensures live { (t r : ℕ) (o p : AllOpened) (places : List Place) → IsOpenedWithout t r o p → StartTogether o p places → AllDrawAnother t r (Opening o) places → AnswersOverBoth t r o p places }
    ensures replies { (t r : ℕ) (o p : AllOpened) (places : List Place) → IsOpenedWithout t r o p → StartTogether o p places → AllDrawAnother t r (Opening o) places → AnswersAfterOverBoth t r o p places }
    ensures hosts { (t r : ℕ) (o p : AllOpened) (places : List Place) → IsOpenedWithout t r o p → StartTogether o p places → AllDrawAnother t r (Opening o) places → is_purged t r (Opening o) places ≡ true → EndsOverBoth o p places }
    ensures tables { (t r : ℕ) (o p : AllOpened) (places : List Place) → IsOpenedWithout t r o p → StartTogether o p places → AllDrawAnother t r (Opening o) places → holds t r (past_after (Opening o) places) ≡ false → HoldsOverBoth o p places }
    ensures purged { (t r : ℕ) (o p : AllOpened) (places : List Place) → IsOpenedWithout t r o p → AllDrawAnother t r (Opening o) places → is_purged t r (Opening o) places ≡ true → holds t r (past_after (Opening o) places) ≡ false }
    ensures gone { (t r : ℕ) (past : Past AllOpened) (places : List Place) → HoldsLive t r past → NoneIsLost places → HoldsLive t r (past_after past places) }
    ensures rows { (t r : ℕ) (o p : AllOpened) (places : List Place) → IsOpenedWithout t r o p → StartTogether o p places → AllDrawAnother t r (Opening o) places → HasRowsWithout t r (past_after (Opening p) places) (past_after (Opening o) places) }
    ensures first_rows { (i t r : ℕ) (past : Past AllOpened) (places : List Place) → AreApart t past → BeginsAt i t r past places → DrawOthersAfter i t r past places → HasRowsWithout t r (past_without i t past places) (past_after past places) }
    ensures again { (t r : ℕ) (o p : AllOpened) (places : List Place) → has_tenant (Opening o) t ≡ true → IsOpenedWithout t r o p → StartTogether o p places → AllDrawAnother t r (Opening o) places → LeaveWithoutAfter t r o p places }
    ensures first { (i t r : ℕ) (past : Past AllOpened) (places : List Place) → AreApart t past → BeginsAt i t r past places → DrawOthersAfter i t r past places → LeaveWithout t r (past_after past places) (past_without i t past places) }
{}

/// Pasts for which one host stands answer each script alike, and one host stands for them at its end.
pub fn a_host_is_all_that_is_told_of_its_past()
    ensures replies { (past other : Past AllOpened) (places : List Place) → standing_hosts past ≡ standing_hosts other → script_replies past places ≡ script_replies other places }
    ensures hosts { (past other : Past AllOpened) (places : List Place) → standing_hosts past ≡ standing_hosts other → standing_hosts (past_after past places) ≡ standing_hosts (past_after other places) }
{}

/// The dialogue of a trail is what its entries say at the places that are kept of it; one more entry is one more place
/// where it is a remark.
pub fn a_dialogue_stands_at_its_places()
    ensures remarks { (trail : List Entry) → remarks_at trail (dialogue_places trail) ≡ dialogue trail }
    ensures more { (trail : List Entry) (e : Entry) → dialogue_places (trail ++ e ∷ []) ≡ dialogue_places trail ++ remark_places (length trail) (e ∷ []) }
{}

/// A reply to a frame is 503 or 507 exactly where something was lost there.
pub fn losses_are_told()
    ensures { (past : Past AllOpened) (frames : List ScriptFrame) (places : List Place) → ArePlacesOf frames places → ArePossible past places → AreLossesTold past places }
{}

/// A turn draws one number where it is an accepted submission, and else none.
pub fn an_accepted_submission_draws_a_number()
    ensures { (past : Past AllOpened) (f : Frame) (loss : Loss) → numbers_of (standing_hosts (play_asked past f loss).past) ≡ numbers_of (standing_hosts past) + (if is_accepted f.asked.command (play_asked past f loss).reply.told then 1 else 0) }
{}

/// No turn, lost or not, is answered as the one that comes after the host's last.
pub fn a_turn_is_not_answered_as_spent()
    ensures told { is_turns_spent turns_spent ≡ true }
    ensures others { (past : Past AllOpened) (f : Frame) (loss : Loss) → is_turns_spent (play_asked past f loss).reply.told ≡ false }
{}

/// Rows of a format become those of format 2: the row of the format is put, and all rows of forms anew. Rows stand in the order of their keys.
pub fn rows_become_those_of_format_2()
    ensures { (format : Format) (xs : List Tenancy) → IsStrictlySortedBy key_cmp (map key_of (rows_in format xs)) → all_changed (rows_in format xs) (converted format xs) ≡ rows_of xs }
{}
