// The offset of each field of a settings record. They are numbers and no enum: a field is read there, and a fault is reported there.
pub const ENDS: u8 = 0;

pub const SLOPE: u8 = 2;

pub const PICKUP: u8 = 4;

pub const REPLICA_REAL: u8 = 6;

pub const REPLICA_IMAGINARY: u8 = 8;

pub const REACH: u8 = 10;

pub const K_REAL: u8 = 12;

pub const K_IMAGINARY: u8 = 14;

pub const ANGLE_REAL: u8 = 16;

pub const ANGLE_IMAGINARY: u8 = 18;

pub const FORWARD_LIMIT: u8 = 20;

pub const REVERSE_LIMIT: u8 = 22;

pub const NEGATIVE_SEQUENCE_PICKUP: u8 = 24;

pub const SECOND_REACH: u8 = 26;

pub const RESISTIVE_REACH: u8 = 28;
