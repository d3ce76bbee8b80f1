// The kinds of statements by their codes (rules, Statements.code), with which a row of the table of statements begins.
pub const AUTOIDX_KIND: u32 = 1;

pub const ATTRIBUTE_KIND: u32 = 2;

pub const MODULE_KIND: u32 = 3;

pub const PARAMETER_KIND: u32 = 4;

pub const WIRE_KIND: u32 = 5;

pub const MEMORY_KIND: u32 = 6;

pub const CELL_KIND: u32 = 7;

pub const CELL_PARAMETER_KIND: u32 = 8;

pub const CELL_CONNECTION_KIND: u32 = 9;

pub const CONNECTION_KIND: u32 = 10;

pub const PROCESS_KIND: u32 = 11;

pub const END_KIND: u32 = 12;

// A line inside a process.
pub const STEP_KIND: u32 = 13;

// A standing rename: no statement, but a row behind them.
pub const RENAME_KIND: u32 = 14;
