//! Bytes of one bin at hand, so that whoever reads many cells looks each bin up once.
ghost use Rattle.reg_heap.specs.Heaps.{Heap};
ghost use Rattle.reg_arena.specs.Stretches.{IsStretch};

/// The bytes of one bin from an offset on.
#[derive(Clone, Copy, Debug)]
pub struct Stretch<'a> {
    /// The offset of the first of them.
    pub from: u32,
    /// The bytes, to the end of the bin.
    pub bytes: &'a [u8],
}

/// A cell's content, and the stretch in which it was found.
#[derive(Clone, Copy, Debug)]
pub struct StretchedCell<'a> {
    /// What the cell holds: the bytes behind its size field.
    pub content: &'a [u8],
    /// The stretch in which the cell lies.
    pub stretch: Stretch<'a>,
}

impl<'a> Stretch<'a> {
    /// A stretch without bytes, in which no cell lies.
    #[tactic(auto, unfolding(crate::specs::Stretches::IsStretch))]
    pub fn empty() -> Self
        ensures { (heap : Heap) → IsStretch heap result.from result.bytes.now }
    {
        Stretch {
            from: 0,
            bytes: &[],
        }
    }
}
