//! What an installer asks for: an application of a package, for whom, and with which privileges.

ghost use Rattle.std.specs.Prelude.{◌≡◌, refl, IfOk};
ghost use Rattle.std.specs.Ordering.{as_partial_cmp};
ghost use Rattle.std.specs.Cmp.{partial_equiv_from_equiv, partial_order_from_own_ties};
ghost use Rattle.std.specs.Cmp.Rules.{comparing};
ghost use Rattle.std.proofs.Common.{rules};
ghost use Rattle.app_registry.specs.Scope.{scope_cmp, scope_rank, same_scope};

use crate::{Ident, NameSet};
use std::alloc::AllocError;
use std::cmp::Ordering;

/// For whom an application is installed: for every user, or for the one user of this number. `Everyone` comes first,
/// and the users in the order of their numbers.
#[derive(Clone, Copy, Debug)]
pub enum Scope {
    Everyone,
    One(u32),
}

/// An application of a package, for whom it is installed, and the privileges that it asks for. No author is one of its
/// own: a package without an author has none in all its installs.
#[derive(Debug, Drop, PartialEq, Eq)]
pub struct Install {
    pub package: Ident,
    pub author: Option<Ident>,
    pub app: Ident,
    pub scope: Scope,
    pub privileges: NameSet,
    /// Whether the package is hybrid: each of its applications then runs with a label of its own. All installs of a
    /// package agree.
    pub hybrid: bool,
}

impl Scope {
    fn rank(self) -> u64
        ensures { result ≡ scope_rank self }
    {
        match self {
            Scope::Everyone => 0,
            Scope::One(uid) => u64::from(uid) + 1,
        }
    }
}

impl PartialEq for Scope {
    ghost eq = { same_scope };

    ghost laws = { Prim.search (comparing, rules) };

    fn eq(&self, other: &Scope) -> bool {
        self.rank() == other.rank()
    }
}

impl Eq for Scope {
    ghost laws = { Prim.search (comparing, rules) };
}

impl PartialOrd for Scope {
    ghost partial_cmp = { as_partial_cmp scope_cmp };

    ghost laws = { partial_order_from_own_ties (Prim.search (comparing, rules)) (Prim.search (comparing, rules)) };

    fn partial_cmp(&self, other: &Scope) -> Option<Ordering> {
        Some(self.cmp(other))
    }
}

impl Ord for Scope {
    ghost cmp = { scope_cmp };

    ghost total = { Prim.search (comparing, rules) };

    ghost matches_partial_cmp = { Prim.search (comparing, rules) };

    ghost matches_eq = { Prim.search (comparing, rules) };

    fn cmp(&self, other: &Scope) -> Ordering {
        self.rank().cmp(&other.rank())
    }
}

impl Install {
    ghost use Rattle.app_registry.specs.Install.{install_cmp};

    /// How the places of two installs in a registry compare: by package, application and scope in turn. Installs that
    /// agree in these have one place.
    pub fn compare_place(&self, other: &Install) -> Ordering
        ensures { result ≡ install_cmp self.now other.now }
    {
        self.package
            .cmp(&other.package)
            .then_with(|| self.app.cmp(&other.app))
            .then_with(|| self.scope.cmp(&other.scope))
    }

    /// An equal install, which shares the texts.
    pub fn copy(&self) -> Result<Install, AllocError>
        ensures { IfOk result (λ copy. copy ≡ self.now) }
    {
        Ok(Install {
            package: self.package.copy()?,
            author: self.author_copy()?,
            app: self.app.copy()?,
            scope: self.scope,
            privileges: self.privileges.copy()?,
            hybrid: self.hybrid,
        })
    }

    pub(crate) fn author_copy(&self) -> Result<Option<Ident>, AllocError>
        ensures { IfOk result (λ author. author ≡ self.now.author) }
    {
        match &self.author {
            Some(author) => Ok(Some(author.copy()?)),
            None => Ok(None),
        }
    }
}
