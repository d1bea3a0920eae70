ghost use Rattle.std.specs.Prelude.{◌≡◌, ◌+◌, ◌-◌, ◌*◌, ◌/◌, ◌<◌, ◌≤◌, ◌↔◌, ℕ, min, IsTrue, None, IsSome, IfSome};
ghost use Rattle.vx_block.specs.Geometry.{is_geometry};

/// How a volume is cut into regions.
#[derive(Clone, Copy, Debug, PartialEq, Eq)]
pub struct Geometry {
    /// The blocks of the volume.
    pub length: u64,
    /// The blocks of a region, a power of two of 32 to 2,048.
    pub region: u64,
    ghost valid: { IsTrue (is_geometry length region) },
}

/// A range of blocks.
#[derive(Clone, Copy, Debug, PartialEq, Eq)]
pub struct Span {
    pub start: u64,
    pub count: u64,
}

impl Geometry {
    ghost use Rattle.vx_block.specs.Regions.{region_count, region_at, part_at};
    ghost use Rattle.vx_block.specs.Parts.{IsPartAt};

    /// Refuses an empty volume, a region of another size, and more than 262,144 regions.
    pub fn new(length: u64, region: u64) -> Option<Geometry>
        ensures valid { IsSome result ↔ IsTrue (is_geometry length region) }
        ensures length { IfSome result (λ g. g.length ≡ length) }
        ensures region { IfSome result (λ g. g.region ≡ region) }
    {
        if !matches!(region, 32 | 64 | 128 | 256 | 512 | 1024 | 2048) {
            return None;
        }
        if length == 0 || length > 262_144 * region {
            return None;
        }
        Some(Geometry { length, region })
    }

    /// How many regions there are. The last may be shorter than the others.
    pub fn regions(&self) -> u64
        ensures { result ≡ region_count self.now.length self.now.region }
    {
        (self.length + (self.region - 1)) / self.region
    }

    pub fn region_of(&self, block: u64) -> u64
        requires { block < self.now.length }
        ensures value { result ≡ region_at self.now.region block }
        ensures below { result < region_count self.now.length self.now.region }
    {
        block / self.region
    }

    /// The blocks of a region.
    pub fn range_of(&self, region: u64) -> Span
        requires { region < region_count self.now.length self.now.region }
        ensures start { result.start ≡ region * self.now.region }
        ensures count { result.count ≡ min self.now.region (self.now.length - region * self.now.region) }
        ensures some { 0 < result.count }
    {
        let start = region * self.region;
        let count = self.region.min(self.length - start);
        Span { start, count }
    }

    /// How many parts a range of blocks has.
    pub fn part_count(&self, start: u64, count: u64) -> u64
        requires some { 0 < count }
        requires inside { start + count ≤ self.now.length }
        ensures each { (index : ℕ) → index < result → IsSome (part_at self.now.region start count index) }
        ensures end { part_at self.now.region start count result ≡ None }
        ensures few { result ≤ 262144 }
    {
        self.region_of(start + count - 1) - self.region_of(start) + 1
    }

    /// A part of a range of blocks, by its index: the parts are the range's intersections with the regions, in order.
    /// There is none past the last.
    pub fn part(&self, start: u64, count: u64, index: u64) -> Option<Span>
        requires some { 0 < count }
        requires inside { start + count ≤ self.now.length }
        ensures value { result ≡ part_at self.now.region start count index }
        ensures place { IfSome result (IsPartAt self.now.region start count index) }
    {
        let region = (start / self.region).checked_add(index)?;
        let first = region.checked_mul(self.region)?;
        let low = start.max(first);
        let high = (start + count).min(first.saturating_add(self.region));
        if low < high {
            Some(Span {
                start: low,
                count: high - low,
            })
        } else {
            None
        }
    }
}
