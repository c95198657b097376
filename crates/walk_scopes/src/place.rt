// Where an expression stands. It is handed this and hands none back: so lambdas need no stack.
ghost use Rattle.std.specs.Prelude.{◌≡◌, ◌<◌};

use crate::{Home, ScopeStack};

// The lambdas around an expression, in its home: the rows after the outermost and the innermost.
#[derive(Clone, Copy, PartialEq, Eq)]
pub struct Lambdas {
    pub outer: usize,
    pub inner: usize,
    ghost outer_after: { 0 < outer },
    ghost inner_after: { 0 < inner },
}

// The scope on top, and the lambdas around, if there are any.
#[derive(Clone, Copy, PartialEq, Eq)]
pub struct Scope {
    pub top: ScopeStack,
    pub lambdas: Option<Lambdas>,
}

impl Scope {
    ghost use Rattle.walk_scopes.specs.ScopesModel.{scope_of, top_of, in_lambda, owns, defined};

    // Outside of lambdas.
    pub fn new(top: ScopeStack) -> Scope
        ensures { scope_of result ≡ top_of top }
    {
        Scope { top, lambdas: None }
    }

    // In a lambda up to the row `end` as well: the outermost is kept. No lambda ends at row 0.
    pub fn in_lambda(&self, end: usize) -> Scope
        ensures inside { 0 < end → scope_of result ≡ in_lambda (scope_of self.now) end }
        ensures nowhere { end ≡ 0 → result ≡ self.now }
    {
        if end == 0 {
            return *self;
        }
        let outer = self.lambdas.map_or(end, |l| l.outer);
        Scope {
            top: self.top,
            lambdas: Some(Lambdas { outer, inner: end }),
        }
    }

    // Whether own names are noted: in a def, and not in a lambda there.
    pub fn owns(&self) -> bool
        ensures { result ≡ owns (scope_of self.now) }
    {
        self.top.home == Home::Def && self.lambdas.is_none()
    }

    // Binds a name: of a lambda, up to the end of the innermost.
    #[tactic(auto, unfolding(crate::specs::ScopesModel::defined))]
    pub fn define(&self, work: &mut [u32], name: usize)
        ensures { work.new ≡ defined (scope_of self.now) work.old name }
    {
        match self.lambdas {
            None => self.top.define(work, name),
            Some(l) => work_marks::raise_lambda(work, name, l.inner),
        }
    }
}
