//! Lists that contracts see as plain lists.
ghost use Rattle.std.specs.Prelude.{◌≡◌};

use crate::{BlockLine, View};
use std::marker::Model;
use vx_life::Part;

/// Bytes.
#[derive(Drop)]
pub struct Bytes {
    items: Vec<u8>,
}

impl Model for Bytes {
    ghost use Rattle.std.specs.Prelude.{List, ℕ};

    ghost Value = { List ℕ };

    ghost view = { λ x. x.items.items };
}

impl Bytes {
    pub fn from_vec(items: Vec<u8>) -> Bytes
        ensures { result ≡ items.items }
    {
        Bytes { items }
    }

    pub fn as_slice(&self) -> &[u8]
        ensures { result.now ≡ self.now }
    {
        self.items.as_slice()
    }
}

/// The parts of a call, in order.
#[derive(Drop)]
pub struct Parts {
    items: Vec<Part>,
}

impl Model for Parts {
    ghost use Rattle.std.specs.Prelude.{List};
    ghost use Rattle.vx_life.specs.declared.Part.{Part};

    ghost Value = { List Part };

    ghost view = { λ x. x.items.items };
}

impl Parts {
    pub fn from_vec(items: Vec<Part>) -> Parts
        ensures { result ≡ items.items }
    {
        Parts { items }
    }

    pub fn as_slice(&self) -> &[Part]
        ensures { result.now ≡ self.now }
    {
        self.items.as_slice()
    }
}

/// What a command shows, in order.
#[derive(Drop)]
pub struct Views {
    items: Vec<View>,
}

impl Model for Views {
    ghost use Rattle.std.specs.Prelude.{List};
    ghost use Rattle.vx_answers.specs.declared.answer.View.{View};

    ghost Value = { List View };

    ghost view = { λ x. x.items.items };
}

impl Views {
    pub fn from_vec(items: Vec<View>) -> Views
        ensures { result ≡ items.items }
    {
        Views { items }
    }

    pub fn as_slice(&self) -> &[View]
        ensures { result.now ≡ self.now }
    {
        self.items.as_slice()
    }
}

/// The answers to a block's lines, in its order.
#[derive(Drop)]
pub struct BlockLines {
    items: Vec<BlockLine>,
}

impl Model for BlockLines {
    ghost use Rattle.std.specs.Prelude.{List};
    ghost use Rattle.vx_answers.specs.declared.answer.BlockLine.{BlockLine};

    ghost Value = { List BlockLine };

    ghost view = { λ x. x.items.items };
}

impl BlockLines {
    pub fn from_vec(items: Vec<BlockLine>) -> BlockLines
        ensures { result ≡ items.items }
    {
        BlockLines { items }
    }

    pub fn as_slice(&self) -> &[BlockLine]
        ensures { result.now ≡ self.now }
    {
        self.items.as_slice()
    }
}
