//! The steps that an error may be of, by their numbers.

pub const NONE: u8 = 0;

pub const OPEN: u8 = 1;

pub const DUP: u8 = 2;

pub const PARENT: u8 = 3;

pub const READ_LINK: u8 = 4;

pub const NAME_BELOW: u8 = 5;

pub const LIST: u8 = 6;

pub const CLOSE: u8 = 7;

pub const MAKE_DIR: u8 = 8;

pub const MAKE_FILE: u8 = 9;

pub const MAKE_LINK: u8 = 10;

pub const REMOVE_FILE: u8 = 11;

pub const REMOVE_DIR: u8 = 12;

pub const RENAME: u8 = 13;

pub const KERNEL: u8 = 14;

pub const GIVE: u8 = 15;

pub const REOPEN: u8 = 16;

pub const ATTRIBUTE: u8 = 17;

pub const PROC: u8 = 18;

pub const STATUS: u8 = 19;
