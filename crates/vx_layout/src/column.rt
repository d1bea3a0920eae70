ghost use Rattle.std.specs.Prelude.{◌≡◌, ◌<◌, ◌^◌, nat_le, IsTrue, IfOk};
ghost use Rattle.std.specs.List.{list_all};
ghost use Rattle.vx_layout.specs.Columns.{column_length, rest_in};
ghost use Rattle.vx_layout.specs.Ends.{ends_of, ArePassed};
ghost use Rattle.vx_layout.specs.Valid.{is_strip};

use crate::strip::Strip;
use std::alloc::Global;
use std::marker::Model;
use vx_base::OutOfMemory;

/// The strips of a column, end to end.
#[derive(Drop)]
pub struct Column {
    strips: Vec<Strip>,
    ends: Vec<u64>,
    ghost summed: { ends.items ≡ ends_of 0 strips.items },
}

impl Model for Column {
    ghost use Rattle.std.specs.Prelude.{List};
    ghost use Rattle.vx_layout.specs.declared.strip.Strip.{Strip};

    ghost Value = { List Strip };

    ghost view = { λ c. c.strips.items };
}

impl Column {
    /// Takes the strips in their order. The allocator serves a table of where each of them ends in the column.
    pub fn from_vec(alloc: Global, strips: Vec<Strip>) -> Result<Column, OutOfMemory>
        requires { column_length strips.items < 2 ^ 64 }
        ensures { IfOk result (λ column. column ≡ strips.items) }
    {
        let mut ends = Vec::new(alloc);
        let mut end = 0;
        for strip in &strips {
            end += strip.count;
            ends.push(end)?;
        }
        Ok(Column { strips, ends })
    }

    pub fn as_slice(&self) -> &[Strip]
        ensures { result.now ≡ self.now }
    {
        &self.strips
    }

    /// What is left of the strip that has a sector of the column, from that sector on.
    pub fn rest_in(&self, sector: u64) -> Option<Strip>
        requires { IsTrue (list_all is_strip self.now) }
        ensures { result ≡ rest_in self.now sector }
    {
        let passed = self.count_passed(sector);
        if passed == self.strips.len() {
            return None;
        }
        let strip = self.strips[passed];
        let count = self.ends[passed] - sector;
        Some(Strip {
            disk: strip.disk,
            start: strip.start + (strip.count - count),
            count,
        })
    }

    /// How many strips end at a sector of the column or before it. Found by halving.
    fn count_passed(&self, sector: u64) -> usize
        ensures { ArePassed self.now sector result }
    {
        self.ends.as_slice().partition_point(
            |end: &u64| -> bool
                ensures { result ≡ nat_le end.now sector }
            { *end <= sector },
        )
    }
}
