//! The shared words: what holds of them between any two steps, and what each step tells.

use crate::knows::Watch;
use atomic_table::{Play, Seat, Shared, TableRule};
use image_layout::Geometry;
use std::marker::{Brand, PhantomData};
use std::snapshot::Snapshot;

/// What is fixed when an image is opened.
#[derive(Drop)]
pub struct Opening {
    /// The three numbers that say where each part of the image stands.
    pub geometry: Geometry,
    /// All words as they were then, those behind the image with them: the words that are given to `open`.
    pub words: Snapshot<Vec<u64>>,
    /// How many callers there are together.
    pub callers: u64,
}

/// The rule of the shared words: the invariant of the world, over the words and the views of all seats.
pub struct Rule;

impl TableRule<u8, Watch, Opening> for Rule {
    ghost use Rattle.vlock.specs.Ruling.{ground_of, first_of, Kept};

    ghost holds = { λ key s. Kept (ground_of key) s };

    ghost first = { first_of };
}

/// Why an event is made: where it runs, what is wanted, and which kind of step it is, by the value that its word is found
/// to have. Each call of `event` picks it.
pub trait Acting {
    ghost use Rattle.std.specs.Prelude.{ℕ};
    ghost use Rattle.op_core.specs.declared.want.Want.{Want};
    ghost use Rattle.world.specs.Ground.{Ground};
    ghost use Rattle.world.specs.StepKinds.{StepKind};

    ghost ground: { Ground };

    ghost want: { Want };

    ghost kind: { ℕ → StepKind };
}

/// The mark of a call that picks its own: what stands here is never used.
impl Acting for Brand {
    ghost use Rattle.std.specs.Prelude.{None};
    ghost use Rattle.op_core.specs.declared.want.Want.TheVariants.{Fence};
    ghost use Rattle.world.specs.Kinds.{fences};
    ghost use Rattle.world.specs.StepKinds.{of_call};

    ghost ground = { record { shape = record { segments = 0; depth = 0; kind = 0 }; front = λ i. 0; start = λ k. None; callers = 0 } };

    ghost want = { Fence };

    ghost kind = { λ n. of_call fences };
}

/// What the step of such an event tells.
pub struct Acts<N> {
    kind: PhantomData<N>,
}

impl<N: Acting> Play<u8, Watch> for Acts<N> {
    ghost use Rattle.vlock.specs.Plays.{Acted};

    ghost then = { λ st m r n. Acted N.ground N.want N.kind m r n };
}

/// The shared words of an open image, as threads see them.
pub type Image = Shared<u8, Watch, Opening, Rule>;

/// A token with which a thread takes steps on the words of one image. It has no bytes.
pub type ImageSeat = Seat<u8, Watch>;
