//! The mistakes of declarations.

ghost use Rattle.std.specs.Prelude.{◌≡◌, ◌++◌, ℕ, List, [], map, length, true, false, OnOk, IfOk};
ghost use Rattle.sopl_ast.specs.Decls.{declaration};
ghost use Rattle.sopl_ast.specs.Mistakes.{entity_of, no_names, bind_dim, bind_dims, of_dim_name, of_dims, of_range, of_stage, of_outcomes, of_number, of_init, first_of, wrong_depths};
ghost use Rattle.sopl_ast.specs.Mistakes.{of_declaration, of_declarations, declare, declare_all};
ghost use Rattle.sopl_ast.specs.Inits.{init_tree};
ghost use Rattle.sopl_ast.specs.Ranges.{range_of};
ghost use Rattle.sopl_types.specs.Earliest.{earliest};
ghost use Rattle.sopl_types.specs.Entered.{declared_in};
ghost use Rattle.sopl_types.specs.Known.{known_in};

use crate::expressions::KindChecker;
use crate::inits::wrong_depth;
use crate::mistakes::{earlier, known};
use crate::names::{Declared, NameKind, Names};
use sopl_ast::{Decl, Dim, Dims, Dist, Expr, Init, RangeText};
use sopl_base::Refusal;
use std::alloc::{AllocError, Global};

#[tactic(auto, using(crate::proofs::DeclWalks::decl_walks))]
impl<'a> Names<'a> {
    /// The name of a dimension is known already.
    fn dim_name(&self, dim: &Dim) -> Option<Refusal>
        ensures { result ≡ earliest (of_dim_name (known_in self.now) dim.now.binder dim.now.at) }
    {
        match &dim.binder {
            None => None,
            Some(name) => known(self.entity(name), dim.at),
        }
    }

    /// Adds the name of a dimension, if it has one.
    fn add_dim(&mut self, dim: &'a Dim) -> Result<(), AllocError>
        ensures { OnOk result (known_in self.new ≡ bind_dim dim.now.binder (known_in self.old)) }
    {
        match &dim.binder {
            None => Ok(()),
            Some(name) => self.add(name),
        }
    }

    /// The first mistake of a dimension, whose range knows no name in `names`.
    fn dim(&self, names: &Names<'a>, dim: &'a Dim) -> Result<Option<Refusal>, AllocError>
        ensures { IfOk result (λ first. first ≡ earliest (of_dim_name (known_in names.now) dim.now.binder dim.now.at
            ++ of_range (known_in self.now) true dim.now.range)) }
    {
        let first = names.dim_name(dim);
        Ok(earlier(first, self.range(true, &dim.range)?))
    }

    /// The names behind dimensions, and the first mistake of the dimensions.
    fn dims(&'a self, dims: &'a [Dim]) -> Result<KindChecker<'a>, AllocError>
        ensures names { IfOk result (λ within. known_in within.names ≡ bind_dims dims.now (known_in self.now)) }
        ensures first { IfOk result (λ within. within.first ≡ earliest (of_dims (known_in self.now) (known_in self.now) dims.now)) }
    {
        let mut names = Names::inside(self);
        let mut first = None;
        'dims: for dim in dims {
            first = earlier(first, self.dim(&names, dim)?);
            names.add_dim(dim)?;
        }
        Ok(KindChecker { names, first })
    }

    fn stage(&self, stage: &'a Option<Expr>) -> Result<Option<Refusal>, AllocError>
        ensures { IfOk result (λ first. first ≡ earliest (of_stage (known_in self.now) stage.now)) }
    {
        match stage {
            None => Ok(None),
            Some(e) => self.number(true, e),
        }
    }

    /// The first mistake of a value and its weight.
    fn outcome(&self, outcome: &'a (Expr, Expr)) -> Result<Option<Refusal>, AllocError>
        ensures { IfOk result (λ first. first ≡ earliest (of_number (known_in self.now) true outcome.now.0
            ++ of_number (known_in self.now) true outcome.now.1)) }
    {
        let first = self.number(true, &outcome.0)?;
        Ok(earlier(first, self.number(true, &outcome.1)?))
    }

    fn outcomes(&self, outcomes: &'a [(Expr, Expr)]) -> Result<Option<Refusal>, AllocError>
        ensures { IfOk result (λ first. first ≡ earliest (of_outcomes (known_in self.now) outcomes.now)) }
    {
        let mut first = None;
        'outcomes: for outcome in outcomes {
            first = earlier(first, self.outcome(outcome)?);
        }
        Ok(first)
    }

    /// The first mistake of a declaration of constants behind its name.
    fn constants(&'a self, dims: &'a Dims, value: &'a Init) -> Result<Option<Refusal>, AllocError>
        ensures { IfOk result (λ first. first ≡ earliest (of_dims (known_in self.now) (known_in self.now) dims.now
            ++ (of_init (bind_dims dims.now (known_in self.now)) (init_tree value.now)
            ++ first_of (wrong_depths (length dims.now) 0 (init_tree value.now))))) }
    {
        let dims = dims.as_slice();
        let within = self.dims(dims)?;
        let first = within.names.initial(value)?;
        let first = earlier(first, wrong_depth(dims.len(), value));
        Ok(earlier(within.first, first))
    }

    /// The first mistake of a declaration of decisions behind its name.
    fn decisions(
        &self,
        dims: &'a Dims,
        range: &'a RangeText,
        stage: &'a Option<Expr>,
    ) -> Result<Option<Refusal>, AllocError>
        ensures { IfOk result (λ first. first ≡ earliest (of_dims (known_in self.now) (known_in self.now) dims.now
            ++ (of_range (bind_dims dims.now (known_in self.now)) false (range_of range.now)
            ++ of_stage (bind_dims dims.now (known_in self.now)) stage.now))) }
    {
        let within = self.dims(dims.as_slice())?;
        let first = within.names.range(false, range)?;
        let first = earlier(first, within.names.stage(stage)?);
        Ok(earlier(within.first, first))
    }

    /// The first mistake of a declaration of stochastic variables behind its name.
    fn stochastics(
        &self,
        dims: &'a Dims,
        dist: &'a Dist,
        stage: &'a Option<Expr>,
    ) -> Result<Option<Refusal>, AllocError>
        ensures { IfOk result (λ first. first ≡ earliest (of_dims (known_in self.now) (known_in self.now) dims.now
            ++ (of_outcomes (bind_dims dims.now (known_in self.now)) dist.now
            ++ of_stage (bind_dims dims.now (known_in self.now)) stage.now))) }
    {
        let within = self.dims(dims.as_slice())?;
        let first = within.names.outcomes(dist.as_slice())?;
        let first = earlier(first, within.names.stage(stage)?);
        Ok(earlier(within.first, first))
    }

    /// The first mistake of the two ends of a range.
    fn ends(&self, lo: &'a Expr, hi: &'a Expr) -> Result<Option<Refusal>, AllocError>
        ensures { IfOk result (λ first. first ≡ earliest (of_number (known_in self.now) true lo.now ++ of_number (known_in self.now) true hi.now)) }
    {
        let first = self.number(true, lo)?;
        Ok(earlier(first, self.number(true, hi)?))
    }

    /// The first mistake of a declaration.
    pub fn declaration(&self, decl: &'a Decl) -> Result<Option<Refusal>, AllocError>
        ensures { IfOk result (λ first. first ≡ earliest (of_declaration (known_in self.now) (declaration decl.now))) }
    {
        match decl {
            Decl::Int {
                name,
                at,
                dims,
                init,
            } => {
                let own = known(self.entity(name), *at);
                Ok(earlier(own, (&*self).constants(dims, init)?))
            }
            Decl::Range { name, at, lo, hi } => {
                let own = known(self.entity(name), *at);
                Ok(earlier(own, self.ends(lo, hi)?))
            }
            Decl::Set { name, at, elements } => {
                let own = known(self.entity(name), *at);
                Ok(earlier(own, self.numbers(true, elements.as_slice())?))
            }
            Decl::Dvar {
                name,
                at,
                dims,
                range,
                stage,
            } => {
                let own = known(self.entity(name), *at);
                Ok(earlier(own, self.decisions(dims, range, stage)?))
            }
            Decl::Stoch {
                name,
                at,
                dims,
                dist,
                stage,
            } => {
                let own = known(self.entity(name), *at);
                Ok(earlier(own, self.stochastics(dims, dist, stage)?))
            }
        }
    }
}

impl Declared {
    /// Enters the declared name.
    fn enter(&mut self, alloc: Global, decl: &Decl) -> Result<(), AllocError>
        ensures { OnOk result ((other : List ℕ) → entity_of (declared_in self.new) other
            ≡ entity_of (declare (declaration decl.now) (declared_in self.old)) other) }
    {
        match decl {
            Decl::Int { name, dims, .. } => {
                self.declare(alloc, name, NameKind::Constant(dims.as_slice().len()))
            }
            Decl::Range { name, .. } => self.declare(alloc, name, NameKind::RangeName),
            Decl::Set { name, .. } => self.declare(alloc, name, NameKind::SetName),
            Decl::Dvar { name, dims, .. } => {
                self.declare(alloc, name, NameKind::Variable(dims.as_slice().len()))
            }
            Decl::Stoch { name, dims, .. } => {
                self.declare(alloc, name, NameKind::Variable(dims.as_slice().len()))
            }
        }
    }
}

/// Declared names, and the first mistake of their declarations.
#[derive(Drop)]
pub struct Declaring {
    pub declared: Declared,
    pub first: Option<Refusal>,
}

/// The first mistake of a declaration behind others.
fn next_mistake(
    alloc: Global,
    declared: &Declared,
    decl: &Decl,
) -> Result<Option<Refusal>, AllocError>
    ensures { IfOk result (λ first. first ≡ earliest (of_declaration (declared_in declared.now) (declaration decl.now))) }
{
    Names::new(alloc, declared).declaration(decl)
}

/// The names of declarations, and the first mistake.
#[tactic(auto, using(crate::proofs::DeclLemmas::decl_lemmas))]
pub fn declarations(alloc: Global, decls: &[Decl]) -> Result<Declaring, AllocError>
    ensures names { IfOk result (λ all. (name : List ℕ) → entity_of (declared_in all.declared) name
        ≡ entity_of (declare_all (map declaration decls.now) no_names) name) }
    ensures first { IfOk result (λ all. all.first ≡ earliest (of_declarations no_names (map declaration decls.now))) }
{
    let mut declared = Declared::new(alloc);
    let mut first = None;
    'decls: for decl in decls {
        first = earlier(first, next_mistake(alloc, &declared, decl)?);
        declared.enter(alloc, decl)?;
    }
    Ok(Declaring { declared, first })
}
