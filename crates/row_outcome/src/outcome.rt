//! What a run left, and what differs from what must come out of it.

ghost use Rattle.std.specs.Prelude.{◌≡◌, ◌≢◌, IfOk, IsNone, IsTrue, string_bytes};

use crate::comparison::{line_difference, word_difference};
use anyhow::Result;
use command_line::{DONE, SINK_FAILED};
use row_file::{Counts, Step};
use std::alloc::{AllocError, Global};

/// What a run left.
#[derive(Drop)]
pub struct Outcome {
    /// The status with which it ended.
    pub status: u8,
    /// What it wrote.
    pub written: Vec<u8>,
    /// The store.
    pub image: Vec<u8>,
    /// What was counted.
    pub counts: Counts,
}

/// Whether a run of this command that ended with this status must leave the store as it was. Where a run is done, and where its sink failed,
/// the store may change.
fn must_keep(command: &str, status: u8) -> bool
    ensures { status ≢ DONE → status ≢ SINK_FAILED → IsTrue result }
{
    (status != DONE && status != SINK_FAILED) || command == "check" || command == "list"
}

impl Outcome {
    /// What differs in the status and in the lines, in words.
    fn told_difference(&self, alloc: Global, step: &Step) -> Result<Option<String>, AllocError>
        ensures status { IfOk result (λ difference. IsNone difference → self.now.status ≡ step.now.status) }
        ensures written { IfOk result (λ difference. IsNone difference → self.now.written.items ≡ string_bytes step.now.written) }
    {
        if u64::from(self.status) != step.status {
            let came = self.status;
            let wanted = step.status;
            return Ok(Some(format!(in alloc; "the status is {came}, and not {wanted}")?));
        }
        match str::from_utf8(&self.written) {
            Ok(written) => line_difference(alloc, written, step.written.as_str()),
            Err(_) => Ok(Some(String::from_str(alloc, "what is written is no text")?)),
        }
    }

    /// What differs in the store and in what was counted, in words.
    fn store_difference(
        &self,
        alloc: Global,
        command: &str,
        before: &[u8],
        step: &Step,
    ) -> Result<Option<String>, AllocError>
        ensures { IfOk result (λ difference. IsNone difference → self.now.status ≢ DONE → self.now.status ≢ SINK_FAILED → self.now.image.items ≡ before.now) }
    {
        if must_keep(command, self.status) && self.image.as_slice() != before {
            return Ok(Some(String::from_str(alloc, "the store was changed")?));
        }
        let counts = self.counts;
        if step.counts.is_some_and(|wanted| wanted != counts) {
            return Ok(Some(format!(in alloc; "what is counted is {counts:?}")?));
        }
        let count = self.image.len() as u64;
        if step.bytes.is_some_and(|bytes| bytes != count) {
            return Ok(Some(format!(in alloc; "{count} bytes are left")?));
        }
        word_difference(alloc, before, &self.image, &step.left, step.others)
    }

    /// What differs after a run of one command of this step on a store that was `before`, in words; none where all is as it must be.
    ///
    /// # Errors
    ///
    /// If there is no memory.
    pub fn difference(
        &self,
        alloc: Global,
        command: &str,
        before: &[u8],
        step: &Step,
    ) -> Result<Option<String>>
        ensures status { IfOk result (λ difference. IsNone difference → self.now.status ≡ step.now.status) }
        ensures written { IfOk result (λ difference. IsNone difference → self.now.written.items ≡ string_bytes step.now.written) }
        ensures kept { IfOk result (λ difference. IsNone difference → self.now.status ≢ DONE → self.now.status ≢ SINK_FAILED → self.now.image.items ≡ before.now) }
    {
        if let Some(difference) = self.told_difference(alloc, step)? {
            return Ok(Some(difference));
        }
        let left = self.store_difference(alloc, command, before, step)?;
        Ok(left)
    }
}
