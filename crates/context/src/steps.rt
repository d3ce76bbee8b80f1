// The steps of a process by their codes (rules, Statements.step_code): the number of a step's word among the keywords.
pub const ASSIGN_STEP: u32 = 19;

pub const SWITCH_STEP: u32 = 20;

pub const CASE_STEP: u32 = 21;

pub const GLOBAL_STEP: u32 = 23;

pub const INIT_STEP: u32 = 24;

pub const ALWAYS_STEP: u32 = 25;

pub const LOW_STEP: u32 = 26;

pub const HIGH_STEP: u32 = 27;

pub const POSEDGE_STEP: u32 = 28;

pub const NEGEDGE_STEP: u32 = 29;

pub const EDGE_STEP: u32 = 30;

pub const UPDATE_STEP: u32 = 31;

// The step of a statement that is none.
pub const NO_STEP: u32 = 0;
