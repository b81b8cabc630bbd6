// The tags that stand before the bytes of values.
pub(crate) const NULL: u8 = 0;

pub(crate) const FALSE: u8 = 1;

pub(crate) const TRUE: u8 = 2;

pub(crate) const NUMBER: u8 = 3;

pub(crate) const TEXT: u8 = 4;

pub(crate) const TIME: u8 = 5;

pub(crate) const LIST: u8 = 6;

pub(crate) const OBJECT: u8 = 7;
