// The top call.
ghost use Rattle.std.specs.Prelude.{◌≡◌, ◌≢◌, ℕ, ◌+◌, ◌<◌, ◌≤◌, ◌⊎◌, List, map, string_bytes};
ghost use Rattle.std.specs.Io.KnownBytes.{Appends};
ghost use Rattle.outside.specs.Causes.{Rose, AppendsFront};
ghost use Rattle.outside.specs.Storing.{most_writes};
ghost use Rattle.outside.specs.declared.gates.GateState.TheVariants.{Unmade};
ghost use Rattle.map_model.specs.Weave.{most_callers, first_caller};
ghost use Rattle.script_text.specs.declared.fault.ScriptFault.{ScriptFault};
ghost use Rattle.image_file.specs.declared.fault.ImageFault.{ImageFault};
ghost use Rattle.script_text.specs.declared.line.Mode.{Mode};
ghost use Rattle.command_line.specs.Commands.{LeavesStore, IsNoCommand, RunsScript, ReadsSource};
ghost use Rattle.reply_text.specs.Texts.{usage_text, script_fault_text, image_fault_text};
ghost use Rattle.dash_top.specs.Bytes.{bytes_told, counts, NoneRose, KeepsStore, RefusesScript};
ghost use Rattle.dash_top.specs.Work.{IsDone, IsRefused, StoreFailed};
ghost use Rattle.dash_top.specs.Top.{IsText, Headline, IsGoodCommand};

use crate::work::{Refused, perform};
use command_line::{
    BAD_IMAGE, BAD_SCRIPT, BAD_WORDS, DONE, NO_MEMORY, SINK_FAILED, SOURCE_FAILED, STORE_FAILED,
};
use outside::{Failed, Gates, Sink, Source, Store, put_all};
use reply_text::{USAGE, image_fault, script_fault};
use std::alloc::Global;
use std::marker::Sync;
use std::sync::Wait;
use std::thread::Threads;

// Writes the text, and answers the status, or that the sink failed.
fn finish<K: Sink>(out: &mut K, status: u8, text: &[u8]) -> u8
    requires { status < SOURCE_FAILED }
    ensures range { (result ≡ status) ⊎ (result ≡ SINK_FAILED) }
    ensures all { result ≡ status → Appends (K.taken out.old) (K.taken out.new) text.now }
    ensures front { result ≡ SINK_FAILED → AppendsFront (K.taken out.old) (K.taken out.new) text.now }
    ensures cause { result ≡ SINK_FAILED → Rose (K.faults out.old) (K.faults out.new) }
{
    match put_all(out, text) {
        Ok(()) => status,
        Err(Failed) => SINK_FAILED,
    }
}

/// Does all that the program does, and answers its status.
///
/// `words` are the words behind the path: `format SEGMENTS DEPTH KIND`, `check`, `list`, `play`, `serve` or `storm SEED SESSIONS CALLS`.
/// The store holds the image's file, the source gives the script, and the sink takes the text, or the line of a refusal.
pub fn dash_run<R: Threads + Wait + Sync, I: Store, S: Source, K: Sink, M: Gates>(
    rt: &R,
    alloc: Global,
    words: &[String],
    image: &mut I,
    input: &mut S,
    out: &mut K,
    _gates: &mut M,
) -> u8
    requires unmade { (caller : ℕ) → first_caller ≤ caller → caller ≤ most_callers → M.state _gates.old caller ≡ Unmade }
    requires countable { I.writes image.old < most_writes }

    ensures range { result ≤ NO_MEMORY }

    // Done: what the words ask for, and its text was written.
    ensures done { result ≡ DONE → (text : List ℕ) × Appends (K.taken out.old) (K.taken out.new) text
        × IsDone (bytes_told (I.contents image.old) (I.contents image.new) (I.writes image.old) (I.writes image.new) (I.lost image.new) (S.left input.old) (S.left input.new)) (map string_bytes words.now) text }

    // The headline: wherever all three tell their bytes, these are what the run of the script leaves, and a session,
    // whose calls, woven by their places, are one legal history of a plain map that starts with the image's pairs.
    ensures headline { result ≡ DONE → (mode : Mode) → RunsScript (map string_bytes words.now) mode
        → Headline mode (bytes_told (I.contents image.old) (I.contents image.new) (I.writes image.old) (I.writes image.new) (I.lost image.new) (S.left input.old) (S.left input.new))
        (K.taken out.old) (K.taken out.new) }

    // The refusals, each with its cause and its line; an image is refused only after the script, where there is one, was
    // found good.
    ensures bad_words { result ≡ BAD_WORDS → IsNoCommand (map string_bytes words.now) × Appends (K.taken out.old) (K.taken out.new) usage_text }
    ensures bad_script { result ≡ BAD_SCRIPT → (mode : Mode) × RunsScript (map string_bytes words.now) mode × ((fault : ScriptFault)
        × RefusesScript (S.left input.old) (S.left input.new) mode fault
        × Appends (K.taken out.old) (K.taken out.new) (script_fault_text fault)) }
    ensures bad_image { result ≡ BAD_IMAGE → ((fault : ImageFault)
        × IsRefused (bytes_told (I.contents image.old) (I.contents image.new) (I.writes image.old) (I.writes image.new) (I.lost image.new) (S.left input.old) (S.left input.new)) (map string_bytes words.now) fault
        × Appends (K.taken out.old) (K.taken out.new) (image_fault_text fault)) }

    // The outside failed. Where the store failed in a read, it is as it was; only a `format`, or a `play` or `serve` that had found
    // script and image good, may have failed in a write, its first.
    ensures source_failed { result ≡ SOURCE_FAILED → ReadsSource (map string_bytes words.now) × Rose (S.faults input.old) (S.faults input.new) }
    ensures sink_failed { result ≡ SINK_FAILED → Rose (K.faults out.old) (K.faults out.new) }
    ensures store_failed { result ≡ STORE_FAILED → Rose (I.faults image.old) (I.faults image.new)
        × StoreFailed (bytes_told (I.contents image.old) (I.contents image.new) (I.writes image.old) (I.writes image.new) (I.lost image.new) (S.left input.old) (S.left input.new)) (map string_bytes words.now) }

    // What is unchanged: the store where nothing was done, and by `check`, `list` and `storm`; the source but by `play` and `serve`; and the
    // sink where nothing is to be written. A store that is as it was was not written, and none is written twice. Where
    // the sink failed, it has taken a front of what was to be written.
    ensures store_kept { result ≢ DONE → result ≢ SINK_FAILED → result ≢ STORE_FAILED
        → KeepsStore (bytes_told (I.contents image.old) (I.contents image.new) (I.writes image.old) (I.writes image.new) (I.lost image.new) (S.left input.old) (S.left input.new)) }
    ensures readers_keep { LeavesStore (map string_bytes words.now)
        → KeepsStore (bytes_told (I.contents image.old) (I.contents image.new) (I.writes image.old) (I.writes image.new) (I.lost image.new) (S.left input.old) (S.left input.new)) }
    ensures no_second_write { I.writes image.new ≤ I.writes image.old + 1 }
    ensures source_kept { (ReadsSource (map string_bytes words.now) → ⊥) → (S.left input.new ≡ S.left input.old) × (S.faults input.new ≡ S.faults input.old) }
    ensures sink_kept { (result ≡ SOURCE_FAILED) ⊎ ((result ≡ STORE_FAILED) ⊎ (result ≡ NO_MEMORY)) → K.taken out.new ≡ K.taken out.old }
    ensures sink_front { result ≡ SINK_FAILED → (text : List ℕ) × AppendsFront (K.taken out.old) (K.taken out.new) text
        × IsText (bytes_told (I.contents image.old) (I.contents image.new) (I.writes image.old) (I.writes image.new) (I.lost image.new) (S.left input.old) (S.left input.new)) (map string_bytes words.now) text }
    ensures gates_kept { (caller : ℕ) → M.state _gates.new caller ≡ M.state _gates.old caller }

    // A good command on a good image and script is done, or memory was wanting.
    ensures complete { IsGoodCommand (bytes_told (I.contents image.old) (I.contents image.new) (I.writes image.old) (I.writes image.new) (I.lost image.new) (S.left input.old) (S.left input.new)) (map string_bytes words.now)
        → NoneRose (counts (S.faults input.old) (S.faults input.new) (K.faults out.old) (K.faults out.new) (I.faults image.old) (I.faults image.new))
        → (result ≡ DONE) ⊎ (result ≡ NO_MEMORY) }
{
    match perform(rt, alloc, words, image, input) {
        Ok(output) => finish(out, DONE, output.as_bytes()),
        Err(Refused::Words) => finish(out, BAD_WORDS, USAGE.as_bytes()),
        Err(Refused::Source) => SOURCE_FAILED,
        Err(Refused::Store) => STORE_FAILED,
        Err(Refused::NoMemory) => NO_MEMORY,
        Err(Refused::Script(fault)) => match script_fault(alloc, fault) {
            Ok(text) => finish(out, BAD_SCRIPT, text.as_bytes()),
            Err(_) => NO_MEMORY,
        },
        Err(Refused::Image(fault)) => match image_fault(alloc, fault) {
            Ok(text) => finish(out, BAD_IMAGE, text.as_bytes()),
            Err(_) => NO_MEMORY,
        },
    }
}
