// The number of a segment.
ghost use Rattle.std.specs.Prelude.{◌≡◌};

#[derive(Clone, Copy)]
pub struct SegmentId(pub u32);

impl SegmentId {
    pub fn new(value: u32) -> SegmentId
        ensures { result.0 ≡ value }
    {
        SegmentId(value)
    }
}
