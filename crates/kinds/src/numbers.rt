// The numbers of document 01 that more than one command's code needs, each as the definition of its name says.

// How long each reply is; MODE SELECT's lists are as long as MODE SENSE's.
pub const LIMITS_LENGTH: usize = 6;

pub const HEADER_LENGTH: usize = 4;

pub const WHOLE_LENGTH: usize = 12;

pub const SHORT_LENGTH: usize = 20;

pub const LONG_LENGTH: usize = 32;

// SPACE's codes.
pub const OVER_BLOCKS: u8 = 0;

pub const OVER_FILEMARKS: u8 = 1;

pub const TO_END: u8 = 3;

// The destinations of LOCATE (16).
pub const BY_OBJECT: u8 = 0;

pub const BY_FILE: u8 = 1;

pub const BY_END: u8 = 3;

// READ POSITION's forms.
pub const SHORT_FORM: u8 = 0x00;

pub const LONG_FORM: u8 = 0x06;

// MODE SENSE's pages: none, and all.
pub const NO_PAGE: u8 = 0x00;

pub const ALL_PAGES: u8 = 0x3f;
