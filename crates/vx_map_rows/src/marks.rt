//! Marks of the four regions of the volume, as plain sets: of each map a byte, whose bit k is region k.

/// The first byte of each map's page.
pub type Marks = [u8; 32];

pub const NO_MARKS: Marks = [0; 32];

/// Each map marks the four regions.
pub const ALL_MARKS: Marks = [15; 32];

/// The bits of the four regions alone.
pub fn clipped(marks: &Marks) -> Marks {
    let mut bits = NO_MARKS;
    for map in 0..32usize {
        bits[map] = marks[map] & 15;
    }
    bits
}

pub fn union(one: &Marks, other: &Marks) -> Marks {
    let mut bits = NO_MARKS;
    for map in 0..32usize {
        bits[map] = one[map] | other[map];
    }
    bits
}

/// Those of the one that the other has not.
pub fn less(one: &Marks, other: &Marks) -> Marks {
    let mut bits = NO_MARKS;
    for map in 0..32usize {
        bits[map] = one[map] & !other[map];
    }
    bits
}

/// Those that both have.
pub fn common(one: &Marks, other: &Marks) -> Marks {
    less(one, &less(one, other))
}

/// Those that one of them has alone.
pub fn difference(one: &Marks, other: &Marks) -> Marks {
    union(&less(one, other), &less(other, one))
}

pub fn is_same(one: &Marks, other: &Marks) -> bool {
    one.as_slice() == other.as_slice()
}

/// Whether the other has all of the one.
pub fn is_within(one: &Marks, other: &Marks) -> bool {
    is_same(&less(one, other), &NO_MARKS)
}

/// Whether each map is that of the one or that of the other.
pub fn is_mixed(marks: &Marks, one: &Marks, other: &Marks) -> bool {
    for map in 0..32usize {
        if marks[map] != one[map] && marks[map] != other[map] {
            return false;
        }
    }
    true
}
