//! The device.

ghost use Rattle.std.specs.Prelude.{◌≡◌, ℕ, ◌<◌, ◌≤◌, ◌+◌, ◌↔◌, IfOk, IfErr, OnOk, OnErr, IsOk, [], ◌++◌, ◌-◌, replicate, length, slice_index};
ghost use Rattle.image_layout.specs.Places.{words_of};
ghost use Rattle.trace.specs.Events.{most_unfenced};
ghost use Rattle.trace.specs.Events.Event.{loaded, stored, exchanged, drawn, flushed, fenced};
ghost use Rattle.image_layout.specs.Volatile.{all_words_of, counter_word};
ghost use Rattle.pm_trace.specs.Memory.{IsLine, unfenced};
ghost use Rattle.pm_trace.specs.TraceOf.{IsTraceOf, Follows, MayLeave};
ghost use Rattle.pm_trace.specs.Choice.{kept};

use crate::flushes::{self, Flush};
use crate::picks::pick;
use image_file::{Medium, Words};
use image_layout::Geometry;
use map_model::NoMemory;
use std::alloc::{AllocError, Global};
use std::marker::Model;
use trace::LINE_WORDS;

/// How many lines a caller may have flushed and not fenced.
const LINES: usize = trace::MOST_UNFENCED as usize;

/// These words, and zeros behind them: `total` in all.
fn padded(alloc: Global, words: &[u64], total: usize) -> Result<Vec<u64>, AllocError>
    requires { length words.now ≤ total }
    ensures { IfOk result (λ v. v.items ≡ words.now ++ replicate (total - length words.now) 0) }
{
    let mut padded = Vec::with_capacity(alloc, total)?;
    padded.extend_from_slice(words)?;
    padded.resize(total, 0)?;
    Ok(padded)
}

/// A persistent memory: the words of an image, and volatile words behind them.
#[derive(Drop)]
pub struct Device {
    geometry: Geometry,
    callers: u8,
    newest: Vec<u64>,
    settled: Vec<u64>,
    flushes: Vec<Flush>,
}

impl Model for Device {
    ghost use Rattle.std.specs.Prelude.{◌≡◌, ℕ, ◌+◌, ◌*◌, ◌≤◌, All, length, vec_capacity};
    ghost use Rattle.trace.specs.Events.{most_unfenced};
    ghost use Rattle.image_layout.specs.Volatile.{all_words_of};
    ghost use Rattle.pm_trace.specs.Memory.{Memory, flushes_of};
    ghost use Rattle.pm_trace.specs.FlushLists.{IsFlush};

    ghost Value = { Memory };

    ghost view = { λ d. record { shape = d.geometry; callers = d.callers; newest = d.newest.items; settled = d.settled.items; flushes = d.flushes.items } };

    ghost invariant = { λ d. (length d.newest.items ≡ all_words_of d.geometry)
        × (length d.settled.items ≡ all_words_of d.geometry)
        × All (IsFlush d.geometry d.callers) d.flushes.items
        × ((c : ℕ) → length (flushes_of c d.flushes.items) ≤ most_unfenced)
        × (most_unfenced * (d.callers + 1) ≤ vec_capacity d.flushes) };
}

impl Device {
    /// The device after power-on with this medium, for callers 0 to `callers`: each word has settled, and the volatile
    /// words are 0.
    ///
    /// # Errors
    ///
    /// `NoMemory` if memory runs out; the medium is gone then.
    pub fn new(alloc: Global, medium: Medium, callers: u8) -> Result<Device, NoMemory>
        requires { length medium.words ≡ words_of medium.geometry }
        ensures shape { IfOk result (λ device. device.shape ≡ medium.geometry) }
        ensures callers { IfOk result (λ device. device.callers ≡ callers) }
        ensures begins { IfOk result (λ device. IsTraceOf (slice_index medium.words) [] device) }
    {
        let total = medium.geometry.all_words();
        let words = medium.words.as_slice();
        let newest = padded(alloc, words, total)?;
        let settled = padded(alloc, words, total)?;
        let flushes = Vec::with_capacity(alloc, LINES * (usize::from(callers) + 1))?;
        Ok(Device {
            geometry: medium.geometry,
            callers,
            newest,
            settled,
            flushes,
        })
    }

    /// How the image is laid out.
    pub fn geometry(&self) -> Geometry
        ensures { result ≡ self.now.shape }
    {
        self.geometry
    }

    /// The greatest number of a caller.
    pub fn callers(&self) -> u8
        ensures { result ≡ self.now.callers }
    {
        self.callers
    }

    /// How many lines a caller has flushed and not fenced.
    pub fn unfenced(&self, caller: u8) -> usize
        ensures { result ≡ unfenced caller self.now }
    {
        flushes::count(&self.flushes, caller)
    }

    /// The newest value of a word.
    pub fn load(&self, w: u64) -> u64
        requires { w < all_words_of self.now.shape }
        ensures value { result ≡ slice_index self.now.newest w }
        ensures follows { (caller : ℕ) → Follows self.now (loaded caller w) self.now }
    {
        self.newest[w as usize]
    }

    /// The settled value of a word: of a volatile one 0.
    pub fn settled(&self, w: u64) -> u64
        requires { w < all_words_of self.now.shape }
        ensures { result ≡ slice_index self.now.settled w }
    {
        self.settled[w as usize]
    }

    /// Stores a value in a word.
    pub fn store(&mut self, caller: u8, w: u64, v: u64)
        requires word { w < all_words_of self.old.shape }
        requires caller { caller ≤ self.old.callers }
        ensures follows { Follows self.old (stored caller w v) self.new }
        ensures shape { self.new.shape ≡ self.old.shape }
        ensures callers { self.new.callers ≡ self.old.callers }
    {
        self.newest[w as usize] = v;
    }

    /// Exchanges the value of a word for another where it is the expected one. Else changes nothing: that is a load.
    ///
    /// # Errors
    ///
    /// The value of the word, where it is not the expected one.
    pub fn exchange(&mut self, caller: u8, w: u64, expected: u64, new: u64) -> Result<(), u64>
        requires word { w < all_words_of self.old.shape }
        requires caller { caller ≤ self.old.callers }
        ensures won { IsOk result ↔ (slice_index self.old.newest w ≡ expected) }
        ensures seen { IfErr result (λ seen. seen ≡ slice_index self.old.newest w) }
        ensures won_follows { OnOk result (Follows self.old (exchanged caller w new) self.new) }
        ensures lost_follows { OnErr result (Follows self.old (loaded caller w) self.new) }
        ensures lost { OnErr result (self.new ≡ self.old) }
        ensures shape { self.new.shape ≡ self.old.shape }
        ensures callers { self.new.callers ≡ self.old.callers }
    {
        let seen = self.newest[w as usize];
        if seen != expected {
            return Err(seen);
        }
        self.newest[w as usize] = new;
        Ok(())
    }

    /// Adds one to the commit counter, and answers what it was. It begins again at zero behind the last number. Which
    /// caller drew makes no difference to a memory, so it is not asked for, and what follows holds for each.
    pub fn draw(&mut self) -> u64
        ensures place { result ≡ slice_index self.old.newest (counter_word self.old.shape) }
        ensures follows { (caller : ℕ) → Follows self.old (drawn caller (counter_word self.old.shape)) self.new }
        ensures shape { self.new.shape ≡ self.old.shape }
        ensures callers { self.new.callers ≡ self.old.callers }
    {
        let counter = self.geometry.words() as usize;
        let place = self.newest[counter];
        self.newest[counter] = place.wrapping_add(1);
        place
    }

    /// Asks for a line to be written back as it is now. The caller's next fence waits for it.
    pub fn flush(&mut self, caller: u8, line: u64)
        requires line { IsLine self.old.shape line }
        requires caller { caller ≤ self.old.callers }
        requires room { unfenced caller self.old < most_unfenced }
        ensures follows { Follows self.old (flushed caller line) self.new }
        ensures shape { self.new.shape ≡ self.old.shape }
        ensures callers { self.new.callers ≡ self.old.callers }
    {
        let newest = self.newest.as_slice();
        let at = LINE_WORDS * line as usize;
        let mut words = [0; LINE_WORDS];
        words.copy_from_slice(&newest[at..at + LINE_WORDS]);
        flushes::add(
            &mut self.flushes,
            Flush {
                caller,
                line,
                words,
            },
        );
    }

    /// Waits for all that the caller has flushed: it has settled then.
    pub fn fence(&mut self, caller: u8)
        requires { caller ≤ self.old.callers }
        ensures follows { Follows self.old (fenced caller) self.new }
        ensures shape { self.new.shape ≡ self.old.shape }
        ensures callers { self.new.callers ≡ self.old.callers }
    {
        flushes::settle(&mut self.settled, &self.flushes, caller);
        flushes::fence(&mut self.flushes, caller);
    }

    /// The medium that a power cut with this choice leaves.
    pub fn cut(self, choice: u64) -> Medium
        ensures geometry { result.geometry ≡ self.shape }
        ensures words { result.words ≡ kept choice self }
        ensures whole { length result.words ≡ words_of self.shape }
        ensures possible { MayLeave self result.words }
    {
        let words = self.geometry.words() as usize;
        let mut settled = self.settled;
        settled.truncate(words);
        pick(&mut settled, &self.newest[..words], choice);
        Medium {
            geometry: self.geometry,
            words: Words::new(settled),
        }
    }
}
