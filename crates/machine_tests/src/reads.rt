//! Gets over the words of a table of one segment in which key 5 stands in its home bucket with value 7, and key 6 in the first
//! stash bucket with value 9. Each is told by its key.
use crate::memory::Memory;
use crate::rows::Follows;
use op_core::{Machine, Want};
use read_op::{ReadEnd, ReadOp};
use row_file::number_of;
use std::test::Fail;

impl Follows for ReadOp {
    /// Its end.
    type Stand = Option<ReadEnd>;

    fn begun(memory: &mut Memory, case: &str) -> Result<ReadOp, Fail> {
        Ok(ReadOp::new(number_of(case)?, memory.site))
    }

    fn stands(&self) -> Self::Stand {
        match self.want() {
            Want::Done => Some(self.end()),
            _ => None,
        }
    }
}

/// Gets on that table, of which word 97 is the metadata word of the home bucket.
pub const ROWS: &str = "\
table 65=257 96=2 98=5 100=5 101=7 128=2 2144=2 2145=1 2146=6 2148=6 2149=9 2176=2 2208=1
# Key 5 stands in the home bucket, key 6 in the first stash bucket, and neither 0 nor 7 anywhere. Word 97 has no more than the record of key 5;
# a note of fingerprint 6 in the first stash bucket; one of fingerprint 0 in the second; and the count of one record without a note.
on 97=1
do 5 -> Some(Found(7, 1)) in 74
on 97=1
do 7 -> Some(Absent(1)) in 74
on 97=0xC00040000001
do 6 -> Some(Found(9, 1)) in 107
on 97=0x1010000001
do 0 -> Some(Absent(1)) in 107
on 97=0x10000000001
do 6 -> Some(Found(9, 1)) in 140
on 97=0x10000000001
do 5 -> Some(Found(7, 1)) in 140
on 97=0x10000000001
do 7 -> Some(Absent(1)) in 140
# The power is off; the segment is stale; the header is that of a free slot; root and entry lead elsewhere; and root, entry and header change.
on 97=1
other 0 2209 1
do 5 -> Some(Off) in 1
on 97=1
other 0 65 258
do 5 -> Some(Stale(0, 2)) in 4
on 97=1
other 0 65 1
do 5 -> Some(Again(Moved { word: 65, before: 1, after: 1 })) in 4
on 97=1
other 0 8 1
do 5 -> Some(Again(Moved { word: 8, before: 1, after: 1 })) in 2
on 97=1
other 0 32 1
do 5 -> Some(Again(Moved { word: 32, before: 1, after: 1 })) in 3
on 97=1
other 20 8 1
do 5 -> Some(Again(Moved { word: 8, before: 0, after: 1 })) in 70
on 97=1
other 20 32 1
do 5 -> Some(Again(Moved { word: 32, before: 0, after: 1 })) in 71
on 97=1
other 20 65 513
do 5 -> Some(Again(Moved { word: 65, before: 257, after: 513 })) in 72
# A segment that is being split, and one that has the other half of the hashes.
on 97=1
other 0 65 513
do 5 -> Some(Again(Moved { word: 65, before: 513, after: 513 })) in 72
on 97=1
other 0 65 0x100010101
do 5 -> Some(Again(Moved { word: 65, before: 4295033089, after: 4295033089 })) in 72
# Each of the four locks is taken; and those of home and probing bucket and of both stash buckets are taken or have moved on after they were looked at.
on 97=1
other 0 96 3
do 5 -> Some(Again(Busy { word: 96, seen: 3 })) in 5
on 97=1
other 0 128 3
do 5 -> Some(Again(Busy { word: 128, seen: 3 })) in 6
on 97=0x10000000001
other 0 2144 3
do 5 -> Some(Again(Busy { word: 2144, seen: 3 })) in 69
on 97=0x10000000001
other 0 2176 3
do 5 -> Some(Again(Busy { word: 2176, seen: 3 })) in 101
on 97=1
other 20 96 3
do 5 -> Some(Again(Busy { word: 96, seen: 3 })) in 73
on 97=1
other 20 96 4
do 5 -> Some(Again(Moved { word: 96, before: 2, after: 4 })) in 73
on 97=1
other 20 128 4
do 5 -> Some(Again(Moved { word: 128, before: 2, after: 4 })) in 74
on 97=0x10000000001
other 80 2144 4
do 5 -> Some(Again(Moved { word: 2144, before: 2, after: 4 })) in 139
on 97=0x10000000001
other 120 2176 4
do 5 -> Some(Again(Moved { word: 2176, before: 2, after: 4 })) in 140
";
