//! The laws of the kinds of step at the structure and, part by part, of those of calls: each keeps each part of the invariant. The functions
//! do nothing: each stands for the law that its contract says.

ghost use Rattle.world.specs.areas.Calling.{CallersKeepLocks, CallersKeepHeldWords};
ghost use Rattle.world.specs.areas.Keeping.{KnownIsSo, KeepsHeldWords, KeepsLocks, KeepsOwnedRecords, KeepsNotesOfHomes, KeepsOthers, KeepsAreas, KeepsSettledSlots, KeepsUsedSlots, KeepsGuards, KeepsHeldGuards, KeepsSayers, KeepsPins, KeepsSound, KeepsFacts, KeepsStructure, KeepsMedia, KeepsHolding, StructureStepsSpare, StructureStepsReplyNothing};
ghost use Rattle.world.specs.areas.Bridging.{CallersKnowAsBefore, CallersKeepOthers, CallersKeepRecords, CallersKeepNotesOfHomes, CallersKeepStructure, CallersKeepMedia, CallersKeepReadersNotes};
ghost use Rattle.world.specs.areas.Beginning.{RestartsBegin, RaisedVersionsLeaveNoneCurrent, RaisedVersionsBegin};
ghost use Rattle.world.specs.areas.Restarting.{SoundImagesBegin};
ghost use Rattle.world.specs.areas.SpentNumbers.{CallersKeepSpending};
ghost use Rattle.world.specs.areas.Worlds.{StructureStepsDoEvents, StructureStepsKeepTied, FlushesKeepTied, CallersKeepTied, StructureStepsKeepWell, BeginsWell, DeviceLeaves};

/// What a view knows is so: of the newest words, and of what a cut may leave, by its cores.
pub fn what_views_know_is_so()
    ensures { KnownIsSo }
{}

/// A known word stays the newest, and known words and those that are not settled stay held by their view.
pub fn held_words_stay()
    ensures { KeepsHeldWords }
{}

/// A lock keeps its one holder and its word, and no odd lock word comes to a segment of the image's version.
pub fn locks_stay()
    ensures { KeepsLocks }
{}

/// A current segment that nobody has whole owns each record in it, and each key stands once there, or its mover has it under way: steps at the
/// structure keep that, and a segment that others may rest on from then on is in order.
pub fn records_stay()
    ensures { KeepsOwnedRecords }
{}

/// The notes of its homes stay exact, but for those that are owed, and what is owed stays so.
pub fn notes_of_homes_stay()
    ensures { KeepsNotesOfHomes }
{}

/// Planned changes stay stored, guarded and to be answered; the history, the room for places and the power are as they were; a lock
/// word that was found spent stays so; and a note of a reader falls behind no further than its word comes, so that a noted answer stays
/// right.
pub fn other_parts_stay()
    ensures { KeepsOthers }
{}

/// The words are such after a step that all views may have their locks and areas; and in whatever a cut may leave a hash has the owner that it
/// has now, and the same segments live, but for sides that are not settled. And a slot that is taken is so there, or who took it has the guard
/// of free slots still; one that was free at the start is live then, or the new side of a splitting segment of the image's version.
pub fn steps_keep_areas()
    ensures areas { KeepsAreas }
    ensures slots { KeepsSettledSlots }
    ensures used { KeepsUsedSlots }
{}

/// Who has a guard, its word is not that of a free one; a guard that is not free by its word is had by some view; who says that a segment
/// claims hashes has its guard or that of the directory; and a pinned header is as it was.
pub fn steps_keep_guards()
    ensures guards { KeepsGuards }
    ensures held { KeepsHeldGuards }
    ensures sayers { KeepsSayers }
    ensures pins { KeepsPins }
{}

/// The structure stays sound in whatever a cut may leave.
pub fn steps_keep_the_structure_sound()
    ensures { KeepsSound }
{}

/// The facts of all views go on to hold beside whatever a cut may leave: but for the claims of a segment whose side goes live, which
/// its holder alone may say and says no more.
pub fn steps_keep_facts()
    ensures { KeepsFacts }
{}

/// So each kind of step keeps all that is said of the structure.
pub fn steps_keep_the_structure()
    ensures { KeepsStructure }
{}

/// Whatever a cut may leave is a table, and has for each key what the history or one planned change gives it; and a record in the stash of
/// a watched segment stands there in the newest words too, or is being removed.
pub fn steps_keep_media()
    ensures { KeepsMedia }
{}

/// A restart begins the invariant, where each current segment is repaired: of stale segments, new sides and free
/// slots nothing is asked. So it is after a restart of any sound image. Where it raised the version no segment is current, so nothing is
/// asked of any.
pub fn structure_begins()
    ensures begins { RestartsBegin }
    ensures any { SoundImagesBegin }
    ensures none { RaisedVersionsLeaveNoneCurrent }
    ensures raised { RaisedVersionsBegin }
{}

/// Each step at the structure leaves the words that its event makes, and keeps the views tied to the events of the device; so does a flush
/// of any line, and each step of a caller. So a step keeps the world well, and a restart leaves it well.
pub fn structure_keeps_tied()
    ensures events { StructureStepsDoEvents }
    ensures steps { StructureStepsKeepTied }
    ensures flushes { FlushesKeepTied }
    ensures callers { CallersKeepTied }
    ensures well { StructureStepsKeepWell }
    ensures begins { BeginsWell }
{}

/// What a power cut of the device may leave is what the views say.
pub fn device_leaves_what_views_say()
    ensures { DeviceLeaves }
{}

/// So each kind of step at the structure keeps the invariant, for any number of callers, by a condition on the stepping caller's view alone;
/// and none adds to the history.
pub fn structure_steps_keep()
    ensures { KeepsHolding }
{}

/// And it leaves what each key has in the newest words, the power word, and each lock word of a live segment that is free with the last version;
/// of its caller it leaves what it has replied and seen.
pub fn structure_steps_change_no_pair()
    ensures spare { StructureStepsSpare }
    ensures reply { StructureStepsReplyNothing }
{}

/// Each kind of step of a caller keeps the locks, and known and loose words held.
pub fn callers_keep_locks_and_words()
    ensures locks { CallersKeepLocks }
    ensures words { CallersKeepHeldWords }
{}

/// Each step of a caller keeps what is said of spent numbers, whatever areas its view has.
pub fn callers_keep_spent_numbers()
    ensures { CallersKeepSpending }
{}

/// A view that has no segment whole knows all that the conditions of callers' kinds rest on: what the newest words may be,
/// what may stand beside them, and what all keys may have.
pub fn callers_know_as_before()
    ensures { CallersKnowAsBefore }
{}

/// So each kind of step of such a caller keeps planned changes, the history, the room for places and the power.
pub fn callers_keep_other_parts()
    ensures { CallersKeepOthers }
{}

/// And that a current segment which nobody has whole owns each record in it, and has each key once, or its mover has it under way, and
/// that the notes of its homes are exact, but for those that are owed.
pub fn callers_keep_records()
    ensures records { CallersKeepRecords }
    ensures notes { CallersKeepNotesOfHomes }
{}

/// And that the structure is sound in whatever a cut may leave, that locks and areas fit it, that facts hold and pinned headers are as they
/// were, where no fence settles a side as a live segment.
pub fn callers_keep_the_structure()
    ensures { CallersKeepStructure }
{}

/// And that whatever a cut may leave is a table, with what the history or one planned change gives each key.
pub fn callers_keep_media()
    ensures { CallersKeepMedia }
{}

/// And that what readers noted falls behind no further than its word comes, so that a noted answer stays right.
pub fn callers_keep_readers_notes()
    ensures { CallersKeepReadersNotes }
{}
