//! The laws of an engine. The functions do nothing: each stands for the law that its contract says.

ghost use Rattle.std.specs.Prelude.{◌≡◌, ◌≢◌, ℕ, ◌+◌, ◌<◌, ◌≤◌, ◌⊎◌, false, Some};
ghost use Rattle.trace.specs.Events.{most_unfenced};
ghost use Rattle.op_core.specs.declared.want.Want.TheVariants.{Flush, Fence, Done};
ghost use Rattle.op_core.specs.declared.want.Ans.{Ans};
ghost use Rattle.map_model.specs.declared.call.Call.{Call};
ghost use Rattle.map_model.specs.declared.call.Call.TheVariants.{Get};
ghost use Rattle.world.specs.declared.site.Site.{Site};
ghost use Rattle.op_core.specs.Answers.{IsAnswer};
ghost use Rattle.engine.specs.declared.engine.Engine.{Engine};
ghost use Rattle.engine.specs.Engine.{begun, wanted, taken, IsFresh};
ghost use Rattle.world.specs.Ground.{Ground as Image};
ghost use Rattle.part.specs.Doings.{nothing_done};
ghost use Rattle.part.specs.Outcomes.{finished};
ghost use Rattle.part.specs.Part.{IsPart, IsWait};
ghost use Rattle.part.specs.Causes.{EndsByCause};
ghost use Rattle.part.specs.Splits.{EndsBySplitCause};
ghost use Rattle.part.specs.Repairs.{EndsByRepairCause};
ghost use Rattle.repair_op.specs.Finishing.{FinishesCurrent};
ghost use Rattle.engine.specs.OpPart.{call_part, whole_split, split_segment_in, whole_repair, repaired_segment_in, op_part, calls, work_of};
ghost use Rattle.engine.specs.Causes.{BeginsBare, EndsAreDecided, CallCauses};
ghost use Rattle.engine.specs.Fits.{BeginsSuited, AnewSuited, RepairSuited, KeepsSuits};
ghost use Rattle.engine.specs.Left.{most_events, most_of_attempt, most_of_get, left, waiting};
ghost use Rattle.engine.specs.Pairs.{LeavesOrMakes, BeginsUnmade, StaysMade, EndsAsDone, TurnLeavesOrMakes};
ghost use Rattle.engine.specs.Asks.{AsksWithin, AsksWords, KeepsNotes};

/// The machines of a call are one part: a get or a change that goes on to the move of a record, to the stash and to giving all back; or a
/// segment is enclosed, its new side made and published, and the rest done; or a stale segment is guarded, entries are redirected to its ready
/// side, and the rest is mended. Each of its outcomes has its cause, in what its attempt did, and a segment that is told repaired has the image's
/// version. An attempt begins holding nothing, and remembers nothing; no machine of the call itself ends as one that has finished; and where
/// nothing more is wanted, the end is what was decided.
pub fn calls_are_parts()
    ensures part { IsPart op_part }
    ensures causes { EndsByCause call_part }
    ensures split_causes { EndsBySplitCause whole_split split_segment_in }
    ensures repair_causes { EndsByRepairCause whole_repair repaired_segment_in }
    ensures repair_current { FinishesCurrent whole_repair repaired_segment_in }
    ensures remembers { (site : Image) (here : Site) (e : Engine) → IsFresh here e → op_part.Remembers site e.op nothing_done }
    ensures bare { BeginsBare }
    ensures finished { (e : Engine) → work_of e.op ≡ calls → op_part.outcome e.op ≡ Some finished → ⊥ }
    ensures ends { EndsAreDecided }
{
    read_op::gets_are_parts();
    write_op::changes_are_parts();
    write_op::ends_tell();
    move_op::moves_are_parts();
    move_op::ends_tell();
    stash_op::stashes_are_parts();
    stash_op::ends_tell();
    release_op::releases_are_parts();
    release_op::ends_tell();
    enclose_op::enclosings_are_parts();
    enclose_op::ends_have_causes();
    enclose_op::ends_tell();
    split_op::splits_are_parts();
    split_op::ends_have_causes();
    directory_op::publishings_are_parts();
    directory_op::outcomes_have_causes();
    rest_op::rests_are_parts();
    repair_op::repairs_are_parts();
    repair_op::ends_have_causes();
    redirect_op::redirects_are_parts();
    redirect_op::ends_have_causes();
    mend_op::mends_are_parts();
    mend_op::mends_end_repaired();
}

/// What the causes of ends rest on, of the machines of a call.
pub(crate) fn attempts_have_causes()
    ensures { CallCauses }
{
    calls_are_parts();
}

/// An engine fits the world of many callers: at the beginning of a call, on a site of this shape and version, it suits the view of a caller
/// that holds, knows and owes nothing; while the power is on each event of a caller that has a number is one of a kind that the view may take,
/// and leaves a view that suits the engine; or the attempt has ended, and the caller holds and owes nothing, and has its reply as its next
/// entry, or its view suits the next attempt of the call, which splits a segment where that is needed, and repairs one that is stale. Whatever
/// an attempt was decided to be, the next one of a caller that has a number begins so with a view that holds and owes nothing; and so does the
/// repair of a segment that the view knows to be live.
pub fn fits_the_world()
    ensures begins { BeginsSuited }
    ensures anew { AnewSuited }
    ensures repairs { RepairSuited }
    ensures steps { KeepsSuits }
{
    world::steps_add_one_reply();
    world::structure_steps_change_no_pair();
    read_op::gets_are_parts();
    write_op::changes_are_parts();
    move_op::moves_are_parts();
    stash_op::stashes_are_parts();
    release_op::releases_find_no_room();
    enclose_op::enclosings_are_parts();
    enclose_op::ends_have_causes();
    repair_op::repairs_are_parts();
    repair_op::ends_have_causes();
    calls_are_parts();
}

/// An engine asks for words of the image and those behind it alone, and flushes lines of the image alone.
pub fn asks_within()
    ensures { AsksWithin }
{
    calls_are_parts();
}

/// An attempt ends: each answer of the kind that was asked for leaves fewer events, of at most `most_events`, but while it waits for the guard
/// of the directory, where as many are left. An attempt of a call itself never waits, and asks for at most 700 events, and one of a get for at
/// most 150.
pub fn attempts_end()
    ensures falls { (e : Engine) (ans : Ans) → IsAnswer (wanted e) ans → (left (taken e ans) < left e) ⊎ IsWait op_part e.op ans }
    ensures most { (e : Engine) → left e ≤ most_events }
    ensures waits { (e : Engine) → work_of e.op ≡ calls → op_part.is_waiting e.op ≡ false }
    ensures few { (site : Site) (call : Call) → left (begun site call) ≤ most_of_attempt }
    ensures few_of_get { (site : Site) (key : ℕ) → left (begun site (Get key)) ≤ most_of_get }
{
    read_op::gets_are_parts();
    write_op::changes_are_parts();
    calls_are_parts();
}

/// What an engine stores, or puts in place of another value, is a word.
pub fn stores_are_words()
    ensures { AsksWords }
{
    calls_are_parts();
}

/// Beside any other callers an event of a call's own machines leaves what each home has noted of the stash, and its records there, but for a
/// home to which its caller owes a note, before the event or after it.
pub fn stores_keep_notes()
    ensures { KeepsNotes }
{
    calls_are_parts();
}

/// At most eight lines are flushed and not fenced: the number that bounds them is 0 at both ends and never above 8, each flush
/// raises it, and no event but a fence lowers it.
pub fn flushes_are_few()
    ensures begins { (here : Site) (e : Engine) → IsFresh here e → waiting e ≡ 0 }
    ensures most { (e : Engine) → waiting e ≤ most_unfenced }
    ensures flushes { (e : Engine) (ans : Ans) (l : ℕ) → IsAnswer (wanted e) ans → wanted e ≡ Flush l → waiting e + 1 ≤ waiting (taken e ans) }
    ensures keeps { (e : Engine) (ans : Ans) → IsAnswer (wanted e) ans → wanted e ≢ Fence → waiting e ≤ waiting (taken e ans) }
    ensures ends { (e : Engine) → wanted e ≡ Done → waiting e ≡ 0 }
{
    calls_are_parts();
}

/// An attempt that does not end as done left the pairs as they were, beside any other callers: each event leaves what every key
/// has, or else is the one by which the attempt makes its change, not made before it and made after; an attempt begins without,
/// and one that has made its change stays so, and ends as done. So it is with the turns of the callers: each leaves all pairs, or
/// is the turn of a caller whose attempt makes its change by the event of this turn, and can end as done alone.
pub fn refusals_leave_pairs()
    ensures leaves { LeavesOrMakes }
    ensures begins { BeginsUnmade }
    ensures stays { StaysMade }
    ensures done { EndsAsDone }
    ensures turns { TurnLeavesOrMakes }
{
    world::steps_leave();
    write_op::ends_tell();
    move_op::ends_tell();
    stash_op::ends_tell();
    calls_are_parts();
}
