// Kinds of lines: the place of a line's word in the table of specs/Lines.
// Kept: kinds stay numbers, since a form that was asked for matches on the kind number (docs/DECISIONS.md).
pub const TREE: usize = 0;

pub const GLOBAL: usize = 1;

pub const BREAK: usize = 2;

pub const CONTINUE: usize = 3;

pub const PASS: usize = 4;

pub const DEF: usize = 5;

pub const ASSIGN: usize = 6;

pub const IF: usize = 7;

pub const ELIF: usize = 8;

pub const WHILE: usize = 9;

pub const FOR: usize = 10;

pub const RETURN: usize = 11;

pub const EXPR: usize = 12;

pub const CLASS: usize = 13;

pub const METHOD: usize = 14;

pub const ATTR: usize = 15;

pub const LIT: usize = 16;

pub const VAR: usize = 17;

pub const UN: usize = 18;

pub const BIN: usize = 19;

pub const INDEX: usize = 20;

pub const CALL: usize = 21;

pub const GET: usize = 22;

pub const LIST: usize = 23;

pub const TUPLE: usize = 24;

pub const SET: usize = 25;

pub const TREESET: usize = 26;

pub const DICT: usize = 27;

pub const LAMBDA: usize = 28;

// How many there are.
pub const COUNT: usize = 29;
