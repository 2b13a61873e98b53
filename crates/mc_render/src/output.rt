//! Outputs, as the words spell them.
use crate::packed::Packed;
use std::marker::Model;

/// An item of the cache as a reply shows it.
#[derive(Drop)]
pub struct ShownItem<'a> {
    /// Whether the cas unique is shown.
    pub with_unique: bool,
    pub key: Packed<'a>,
    pub flags: u64,
    /// The cas unique.
    pub unique: u64,
    pub value: Packed<'a>,
}

impl<'a> Model for ShownItem<'a> {
    ghost use Rattle.mc_render.specs.Shown.{Shown, shown};

    ghost Value = { Shown };

    ghost view = { λ s. shown s.with_unique s.key s.flags s.unique s.value };
}

/// A part of a reply.
#[derive(Drop)]
pub enum Output<'a> {
    /// The line of the fixed text with this number.
    Text(u8),
    /// The lines that show an item.
    Value(ShownItem<'a>),
    /// A number on its line, in decimal digits.
    Number(u64),
}
