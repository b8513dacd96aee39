//! Copies of generators. `specs/View.antt` says what a contract sees of one.

ghost use Rattle.std.specs.Prelude.{◌≡◌, IfOk};
ghost use Rattle.jh_gen.specs.View.{generator_of};

use crate::generator::{Gen, Gens, Inner, Shares};
use std::alloc::{AllocError, Global};

impl Gen {
    /// The same generator once more, with all that it holds. Takes time and memory in proportion to
    /// its size.
    ///
    /// Error: memory was refused.
    #[cycle(copy)]
    pub fn copy(&self, alloc: Global) -> Result<Gen, AllocError>
        ensures { IfOk result (λ copy. generator_of copy ≡ generator_of self.now) }
    {
        match self {
            Gen::Nil => Ok(Gen::Nil),
            Gen::Once(call) => Ok(Gen::Once(*call)),
            Gen::Rising(rise, first) => Ok(Gen::Rising(*rise, *first)),
            Gen::Forever(call) => Ok(Gen::Forever(*call)),
            Gen::Seq(members) => Ok(Gen::Seq(copy_members(alloc, members)?)),
            Gen::Limit(count, inner) => Ok(Gen::Limit(*count, copy_inner(alloc, inner)?)),
            Gen::Mix(members) => Ok(Gen::Mix(copy_members(alloc, members)?)),
            Gen::Phases(members) => Ok(Gen::Phases(copy_members(alloc, members)?)),
            Gen::Reserve(shares, inner) => Ok(Gen::Reserve(
                copy_shares(alloc, shares)?,
                copy_inner(alloc, inner)?,
            )),
            Gen::EachThread(inner) => Ok(Gen::EachThread(copy_inner(alloc, inner)?)),
            Gen::Clients(inner) => Ok(Gen::Clients(copy_inner(alloc, inner)?)),
            Gen::NemesisOnly(inner) => Ok(Gen::NemesisOnly(copy_inner(alloc, inner)?)),
        }
    }
}

/// A copy of an inner generator.
#[cycle(copy)]
fn copy_inner(alloc: Global, inner: &Inner) -> Result<Inner, AllocError>
    ensures { IfOk result (λ copy. copy ≡ inner.now) }
{
    Inner::of(alloc, inner.boxed.copy(alloc)?)
}

/// A copy of the members of a generator.
#[cycle(copy)]
fn copy_members(alloc: Global, members: &Gens) -> Result<Gens, AllocError>
    ensures { IfOk result (λ copies. copies ≡ members.now) }
{
    let mut copies = Vec::new(alloc);
    for member in &members.items {
        copies.push(member.copy(alloc)?)?;
    }
    Ok(Gens::of(copies))
}

/// A copy of the shares of a reserve.
#[cycle(copy)]
fn copy_shares(alloc: Global, shares: &Shares) -> Result<Shares, AllocError>
    ensures { IfOk result (λ copies. copies ≡ shares.now) }
{
    let mut copies = Vec::new(alloc);
    for (count, member) in &shares.items {
        copies.push((*count, member.copy(alloc)?))?;
    }
    Ok(Shares::of(copies))
}
