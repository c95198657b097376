// The table of words in code: which word a field is, the fields of its line, and the lines due below it.
#![tactic(auto)]

ghost use Rattle.std.specs.Prelude.{◌≡◌, ◌<◌};
ghost use Rattle.read_words.specs.WordsModel.{kind_from, shape_of};
ghost use Rattle.read_words.specs.ChildrenModel.{children_by};

use read_fields::Cursor;
use spec_text::{Sort, line_kind};

// A word's place in the table.
#[derive(Clone, Copy, PartialEq, Eq)]
pub struct Kind {
    pub kind: usize,
    pub next: Cursor,
}

// Which fields a word's line has, and the class of places where it is due.
#[derive(Clone, Copy, PartialEq, Eq)]
pub struct Shape {
    pub spanned: bool,
    pub named: bool,
    pub counts: usize,
    pub params: bool,
    pub sort: Sort,
}

// How many lines of each sort are due below a line, in their order.
#[derive(Clone, Copy, PartialEq, Eq, Default)]
pub struct Children {
    pub exprs: usize,
    pub stmts: usize,
    pub elifs: usize,
    pub others: usize,
    pub methods: usize,
    pub attrs: usize,
}

// The kind of a line by its first field. The first byte says which words it can be.
// Kept: no table of the words with `position`: texts take a third longer to read (5.26 ns a byte in place of 3.94).
// And no `match` on the field: its proof has a goal for each of 106 ways to be no word, half of them left open.
pub fn kind_of(text: &[u8], c: Cursor) -> Option<Kind>
    ensures { result ≡ kind_from text.now c }
{
    let word = |kind: usize, word: &[u8]| c.field(text, word).map(|next| Kind { kind, next });
    match read_bytes::byte_at(text, c.at) {
        b'a' => word(line_kind::ASSIGN, b"assign").or_else(|| word(line_kind::ATTR, b"attr")),
        b'b' => word(line_kind::BIN, b"bin").or_else(|| word(line_kind::BREAK, b"break")),
        b'c' => word(line_kind::CALL, b"call")
            .or_else(|| word(line_kind::CLASS, b"class"))
            .or_else(|| word(line_kind::CONTINUE, b"continue")),
        b'd' => word(line_kind::DEF, b"def").or_else(|| word(line_kind::DICT, b"dict")),
        b'e' => word(line_kind::EXPR, b"expr").or_else(|| word(line_kind::ELIF, b"elif")),
        b'f' => word(line_kind::FOR, b"for"),
        b'g' => word(line_kind::GET, b"get").or_else(|| word(line_kind::GLOBAL, b"global")),
        b'i' => word(line_kind::IF, b"if").or_else(|| word(line_kind::INDEX, b"index")),
        b'l' => word(line_kind::LIT, b"lit")
            .or_else(|| word(line_kind::LIST, b"list"))
            .or_else(|| word(line_kind::LAMBDA, b"lambda")),
        b'm' => word(line_kind::METHOD, b"method"),
        b'p' => word(line_kind::PASS, b"pass"),
        b'r' => word(line_kind::RETURN, b"return"),
        b's' => word(line_kind::SET, b"set"),
        b't' => word(line_kind::TUPLE, b"tuple")
            .or_else(|| word(line_kind::TREE, b"tree"))
            .or_else(|| word(line_kind::TREESET, b"treeset")),
        b'u' => word(line_kind::UN, b"un"),
        b'v' => word(line_kind::VAR, b"var"),
        b'w' => word(line_kind::WHILE, b"while"),
        _ => None,
    }
}

// A row of the table.
// Kept: all five cells in each row, as in the documents' table; with `..` those that are left out would not be seen.
fn row(spanned: bool, named: bool, counts: usize, params: bool, sort: Sort) -> Shape
    ensures { result ≡ record { spanned = spanned; named = named; counts = counts; params = params; sort = sort } }
{
    Shape {
        spanned,
        named,
        counts,
        params,
        sort,
    }
}

// The row of the table.
#[tactic(auto, unfolding(crate::specs::WordsModel::shape_of))]
pub fn shape_of(kind: usize) -> Shape
    ensures { result ≡ shape_of kind }
{
    match kind {
        line_kind::TREE => row(false, false, 2, false, Sort::Tree),
        line_kind::GLOBAL => row(false, true, 0, false, Sort::Global),
        line_kind::BREAK => row(true, false, 0, false, Sort::Stmt),
        line_kind::CONTINUE => row(true, false, 0, false, Sort::Stmt),
        line_kind::PASS => row(true, false, 0, false, Sort::Stmt),
        line_kind::DEF => row(true, true, 1, true, Sort::Stmt),
        line_kind::ASSIGN => row(true, false, 0, false, Sort::Stmt),
        line_kind::IF => row(true, false, 3, false, Sort::Stmt),
        line_kind::ELIF => row(false, false, 1, false, Sort::Elif),
        line_kind::WHILE => row(true, false, 1, false, Sort::Stmt),
        line_kind::FOR => row(true, true, 1, false, Sort::Stmt),
        line_kind::RETURN => row(true, false, 0, false, Sort::Stmt),
        line_kind::EXPR => row(true, false, 0, false, Sort::Stmt),
        line_kind::CLASS => row(true, true, 2, false, Sort::Stmt),
        line_kind::METHOD => row(false, true, 1, true, Sort::Method),
        line_kind::ATTR => row(false, true, 0, false, Sort::Attr),
        line_kind::LIT => row(true, false, 0, false, Sort::Expr),
        line_kind::VAR => row(true, true, 0, false, Sort::Expr),
        line_kind::UN => row(true, false, 0, false, Sort::Expr),
        line_kind::BIN => row(true, false, 0, false, Sort::Expr),
        line_kind::INDEX => row(true, false, 0, false, Sort::Expr),
        line_kind::CALL => row(true, false, 1, false, Sort::Expr),
        line_kind::GET => row(true, true, 0, false, Sort::Expr),
        line_kind::LIST => row(true, false, 1, false, Sort::Expr),
        line_kind::TUPLE => row(true, false, 1, false, Sort::Expr),
        line_kind::SET => row(true, false, 1, false, Sort::Expr),
        line_kind::TREESET => row(true, false, 1, false, Sort::Expr),
        line_kind::DICT => row(true, false, 1, false, Sort::Expr),
        line_kind::LAMBDA => row(true, false, 0, true, Sort::Expr),
        _ => row(false, false, 0, false, Sort::Tree),
    }
}

// The lines due below a line of a kind, by its counts.
// Kept: a bound on a, since twice as many lines are due below a dict, and b and c are any numbers.
#[tactic(auto, unfolding(crate::specs::ChildrenModel::children_by))]
pub fn children_of(kind: usize, a: usize, b: usize, c: usize) -> Children
    requires { a < 4294967296 }
    ensures { result ≡ children_by kind a b c }
{
    let none = Children::default();
    match kind {
        line_kind::DEF | line_kind::METHOD => Children { stmts: a, ..none },
        line_kind::ASSIGN | line_kind::BIN | line_kind::INDEX => Children { exprs: 2, ..none },
        line_kind::IF => Children {
            exprs: 1,
            stmts: a,
            elifs: b,
            others: c,
            ..none
        },
        line_kind::ELIF | line_kind::WHILE | line_kind::FOR => Children {
            exprs: 1,
            stmts: a,
            ..none
        },
        line_kind::RETURN
        | line_kind::EXPR
        | line_kind::ATTR
        | line_kind::UN
        | line_kind::GET
        | line_kind::LAMBDA => Children { exprs: 1, ..none },
        line_kind::CLASS => Children {
            methods: a,
            attrs: b,
            ..none
        },
        line_kind::CALL => Children {
            exprs: 1 + a,
            ..none
        },
        line_kind::LIST | line_kind::TUPLE | line_kind::SET | line_kind::TREESET => Children {
            exprs: a,
            ..none
        },
        line_kind::DICT => Children {
            exprs: 2 * a,
            ..none
        },
        _ => none,
    }
}
