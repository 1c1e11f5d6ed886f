ghost use Rattle.std.specs.Prelude.{◌≡◌, ℕ, ◌<◌, ◌≤◌, ◌^◌, bit_and};
ghost use Rattle.path_words.specs.MaskPaths.{IsSource, mask_path};

use simp_ops::Degens;

/// The path word of a pair of simplices of degree `len`: at step j both parts move, or the left part
/// stays, where bit j of `left` is set, or the right part, where bit j of `right` is. The masks are
/// disjoint and have bits below `len` alone. `len` is at most 32, and at most 31 for a source, so that
/// its target is a path word too.
#[derive(Clone, Copy, Debug, PartialEq, Eq)]
pub struct PathWord {
    pub len: u32,
    pub left: Degens,
    pub right: Degens,
    pub ghost left_below: { left.mask < 2 ^ len },
    pub ghost right_below: { right.mask < 2 ^ len },
    pub ghost disjoint: { bit_and left.mask right.mask ≡ 0 },
    pub ghost short: { len ≤ 32 },
    pub ghost room: { IsSource (mask_path len left.mask right.mask) → len ≤ 31 },
}

/// The first event of a path word, read from the left.
#[derive(Clone, Copy, Debug, PartialEq, Eq)]
pub enum PathEvent {
    /// Both parts move at this step.
    Source(u32),
    /// Only the right part moves at this step, and only the left part at the next.
    Target(u32),
    /// Neither: first only the left part moves, then only the right part.
    Critical,
}
