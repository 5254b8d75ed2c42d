//! Small runs of a memory over a new image, with what each word then holds: words and lines are counted by hand, and the numbers of the streams
//! come from another program.

ghost use Rattle.std.specs.Prelude.{◌≡◌, ◌<◌, true};
ghost use Rattle.image_layout.specs.Volatile.{all_words_of};

use crate::rows::{TellsOfNumbers, hex, said, shown, walk_numbers};
use image_file::format;
use image_layout::{Geometry, IDENTITY_KIND};
use pm_trace::{Device, next_number};
use std::alloc::Global;
use std::test::Fail;

/// Six words, and what is stored in them: each is 0 in a new image.
const STORED: [(u64, u64); 6] = [(4, 2), (9, 3), (17, 4), (100, 5), (2000, 6), (2207, 7)];

/// A memory over a new image of one segment, for callers 0 to 2.
fn new_device(alloc: Global) -> Result<Device, Fail> {
    let medium = format(alloc, Geometry::new(1, 0, IDENTITY_KIND)?)?;
    Ok(Device::new(alloc, medium, 2)?)
}

/// Whether the memory has a word of this number.
fn has_word(device: &Device, w: u64) -> bool
    ensures { result ≡ true → w < all_words_of device.now.shape }
{
    w < device.geometry().all_words() as u64
}

/// Stores a value, where there are such a word and such a caller.
fn store(device: &mut Device, caller: u64, w: u64, v: u64) -> &'static str {
    if has_word(device, w) && caller <= u64::from(device.callers()) {
        device.store(caller as u8, w, v);
        "done"
    } else {
        "none"
    }
}

/// Flushes a line, where there are such a line and such a caller, who may flush one more.
fn flush(device: &mut Device, caller: u64, line: u64) -> &'static str {
    if line < 276
        && 8 * line + 8 <= device.geometry().words()
        && caller <= u64::from(device.callers())
        && device.unfenced(caller as u8) < 8
    {
        device.flush(caller as u8, line);
        "done"
    } else {
        "none"
    }
}

/// Fences, where there is such a caller.
fn fence(device: &mut Device, caller: u64) -> &'static str {
    if caller <= u64::from(device.callers()) {
        device.fence(caller as u8);
        "done"
    } else {
        "none"
    }
}

/// The newest and the settled value of a word.
fn values_told(alloc: Global, device: &Device, w: u64) -> Result<String, Fail> {
    if has_word(device, w) {
        shown(alloc, &(device.load(w), device.settled(w)))
    } else {
        Err(Fail::new("no such word"))
    }
}

/// What an exchange by caller 0 comes to.
fn exchange_told(
    alloc: Global,
    device: &mut Device,
    w: u64,
    expected: u64,
    new: u64,
) -> Result<String, Fail> {
    if has_word(device, w) {
        shown(alloc, &device.exchange(0, w, expected, new))
    } else {
        Err(Fail::new("no such word"))
    }
}

/// The six words as they stand in an image.
fn left_of(alloc: Global, words: &[u64]) -> Result<String, Fail> {
    let mut left = Vec::new(alloc);
    for (place, _) in STORED {
        if let Some(word) = words.get(place as usize) {
            left.push(*word)?;
        }
    }
    shown(alloc, &left.as_slice())
}

/// What a cut with this choice leaves of the six words, of which none has settled.
fn cut_told(alloc: Global, choice: u64) -> Result<String, Fail> {
    let mut device = new_device(alloc)?;
    for (place, value) in STORED {
        store(&mut device, 1, place, value);
    }
    let medium = device.cut(choice);
    left_of(alloc, medium.words.as_slice())
}

/// A memory, and the state of a stream.
#[derive(Drop)]
struct Runs {
    device: Device,
    state: u64,
}

impl Runs {
    /// A new memory takes the place of this one.
    fn begin(&mut self, alloc: Global) -> Result<&'static str, Fail> {
        self.device = new_device(alloc)?;
        Ok("done")
    }
}

impl TellsOfNumbers for Runs {
    fn told(&mut self, alloc: Global, name: &str, numbers: &[u64]) -> Result<String, Fail> {
        let done = match (name, numbers) {
            ("new", []) => self.begin(alloc)?,
            ("store", [caller, w, v]) => store(&mut self.device, *caller, *w, *v),
            ("flush", [caller, line]) => flush(&mut self.device, *caller, *line),
            ("fence", [caller]) => fence(&mut self.device, *caller),
            ("word", [w]) => return values_told(alloc, &self.device, *w),
            ("unfenced", [caller]) => {
                return shown(alloc, &self.device.unfenced(u8::try_from(*caller)?));
            }
            ("draw", []) => return shown(alloc, &self.device.draw()),
            ("exchange", [w, expected, new]) => {
                return exchange_told(alloc, &mut self.device, *w, *expected, *new);
            }
            ("cut", [choice]) => return cut_told(alloc, *choice),
            ("stream", []) => return hex(alloc, next_number(&mut self.state)),
            _ => return Err(Fail::new(name)),
        };
        said(alloc, done)
    }
}

#[test]
fn runs_of_a_memory(rt: HostRuntime) -> Result<(), Fail> {
    let mut runs = Runs {
        device: new_device(rt.alloc())?,
        state: 0,
    };
    walk_numbers(rt.alloc(), &mut runs, ROWS)
}

/// What is done, and what it comes to: `word` tells the newest and the settled value, and `cut` what a cut of a memory of its own leaves of six
/// words, each stored and not settled. The commit counter stands in word 2208, where an image of one segment and depth 0 ends.
const ROWS: &str = "\
# Two callers on one line.
store 1 3 1 -> done
flush 1 0 -> done
store 2 4 2 -> done
unfenced 1 -> 1
fence 1 -> done
unfenced 1 -> 0
word 3 -> (1, 1)
word 4 -> (2, 0)
word 2 -> (1, 1)
# A flush alone, and a fence alone, of that caller and of another.
new -> done
store 1 3 1 -> done
fence 1 -> done
word 3 -> (1, 0)
flush 1 0 -> done
fence 2 -> done
word 3 -> (1, 0)
store 1 3 2 -> done
fence 1 -> done
word 3 -> (2, 1)
# Two flushes of one line: each settles what the line was then, whichever caller fences first.
new -> done
store 1 3 1 -> done
flush 1 0 -> done
store 2 3 2 -> done
flush 2 0 -> done
fence 1 -> done
word 3 -> (2, 1)
fence 2 -> done
word 3 -> (2, 2)
new -> done
store 1 3 1 -> done
flush 1 0 -> done
store 2 3 2 -> done
flush 2 0 -> done
fence 2 -> done
word 3 -> (2, 2)
fence 1 -> done
word 3 -> (2, 2)
# Nine lines, in rounds of at most eight. A line that is flushed once more is not one more.
new -> done
store 1 160 20 -> done
store 1 168 21 -> done
store 1 176 22 -> done
store 1 184 23 -> done
store 1 192 24 -> done
store 1 200 25 -> done
store 1 208 26 -> done
store 1 216 27 -> done
store 1 224 28 -> done
flush 1 20 -> done
flush 1 21 -> done
flush 1 22 -> done
flush 1 23 -> done
flush 1 24 -> done
flush 1 25 -> done
flush 1 26 -> done
flush 1 27 -> done
unfenced 1 -> 8
flush 1 28 -> none
fence 1 -> done
flush 1 28 -> done
flush 1 28 -> done
unfenced 1 -> 1
word 216 -> (27, 27)
word 224 -> (28, 0)
fence 1 -> done
word 224 -> (28, 28)
# Words behind the image: draws, which begin again at 0, and exchanges. They never settle.
new -> done
draw -> 0
draw -> 1
word 2208 -> (2, 0)
store 0 2208 18446744073709551615 -> done
draw -> 18446744073709551615
draw -> 0
exchange 2212 0 7 -> Ok(())
exchange 2212 0 8 -> Err(7)
word 2212 -> (7, 0)
# What choices leave: 0 nothing of what is new and 1 all of it, 2 w + 2 word w alone and 2 w + 3 all but that; from 2^63 on the numbers of a stream choose.
cut 0 -> [0, 0, 0, 0, 0, 0]
cut 1 -> [2, 3, 4, 5, 6, 7]
cut 20 -> [0, 3, 0, 0, 0, 0]
cut 21 -> [2, 0, 4, 5, 6, 7]
cut 4416 -> [0, 0, 0, 0, 0, 7]
cut 4418 -> [0, 0, 0, 0, 0, 0]
cut 4419 -> [2, 3, 4, 5, 6, 7]
cut 9223372036854775808 -> [2, 0, 0, 5, 6, 7]
cut 9223372036854788153 -> [2, 0, 4, 0, 0, 7]
cut 18446744073709551615 -> [0, 3, 4, 0, 0, 7]
# The first numbers of a stream, from state 0.
stream -> e220a8397b1dcdaf
stream -> 6e789e6aa1b965f4
stream -> 6c45d188009454f
";
