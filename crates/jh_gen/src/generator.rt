//! Generators, as programs hold them. `specs/Generator.antt` says what a contract sees of one.

ghost use Rattle.std.specs.Prelude.{◌≡◌, IfOk};
ghost use Rattle.jh_gen.specs.View.{generator_of, generators_of, shares_of};

use crate::rise::Rise;
use jh_ops::Call;
use std::alloc::{AllocError, Global};
use std::boxed::Box;
use std::marker::Model;

/// A generator of calls, as jepsen.generator has them. What each kind offers, and when it is spent,
/// is defined in `specs/Offers.antt`. A kind is added here, there, and in the other definitions
/// over `Generator`.
#[cycle(generator)]
#[derive(Debug)]
pub enum Gen {
    /// No call.
    Nil,
    /// One call.
    Once(Call),
    /// Adds or writes of this number, the next one, and so on, up to the greatest that there is.
    Rising(Rise, i64),
    /// One call again and again.
    Forever(Call),
    /// Each generator in its turn, the next one when one is spent.
    Seq(Gens),
    /// At most so many calls of a generator.
    Limit(u32, Inner),
    /// A mixture of generators, among which the random number of an asking chooses.
    Mix(Gens),
    /// Each generator in its turn; one begins only when no thread has an operation outstanding.
    Phases(Gens),
    /// Some client threads for each of some generators, in order of their numbers; all other
    /// threads, the nemesis too, for the last generator.
    Reserve(Shares, Inner),
    /// A copy of a generator for each thread.
    EachThread(Inner),
    /// A generator that only client threads ask.
    Clients(Inner),
    /// A generator that only the nemesis asks.
    NemesisOnly(Inner),
}

// Written out, it is one call wherever a generator is dropped. A derived one is proved there, for each
// kind of generator.
impl Drop for Gen {
    fn drop(self) {
        match self {
            Gen::Nil
            | Gen::Once(_)
            | Gen::Rising(_, _)
            | Gen::Forever(_)
            | Gen::Seq(_)
            | Gen::Limit(_, _)
            | Gen::Mix(_)
            | Gen::Phases(_)
            | Gen::Reserve(_, _)
            | Gen::EachThread(_)
            | Gen::Clients(_)
            | Gen::NemesisOnly(_) => (),
        }
    }
}

/// Generators in order. A contract sees a list.
#[cycle(generator)]
#[derive(Debug, Drop)]
pub struct Gens {
    pub(crate) items: Vec<Gen>,
}

impl Model for Gens {
    ghost use Rattle.std.specs.Prelude.{List};
    ghost use Rattle.std.specs.Coded.{coded_list};
    ghost use Rattle.jh_gen.specs.Generator.{Generator, generator_list_size};
    ghost use Rattle.jh_gen.specs.Code.{generator_coded};

    ghost Value = { List Generator };

    ghost coded = { coded_list generator_coded };

    ghost use Rattle.jh_gen.specs.View.{generators_of};

    ghost view = { λ a. generators_of a.items.items };

    ghost size = { generator_list_size };

    ghost use Rattle.std.proofs.Common.{arith};
    ghost use Rattle.jh_gen.specs.FallsInside.{gens_fall};

    ghost size_decreases = { λ a h. Prim.omega (arith, gens_fall a.items.items) };
}

/// Generators in order, each with the number of client threads that are its own. A contract sees a
/// list of pairs.
#[cycle(generator)]
#[derive(Debug, Drop)]
pub struct Shares {
    pub(crate) items: Vec<(u32, Gen)>,
}

impl Model for Shares {
    ghost use Rattle.std.specs.Prelude.{List, ℕ};
    ghost use Rattle.std.specs.Coded.{coded_list, coded×, coded_ℕ};
    ghost use Rattle.jh_gen.specs.Generator.{Generator, size_shares};
    ghost use Rattle.jh_gen.specs.Code.{generator_coded};

    ghost Value = { List (ℕ × Generator) };

    ghost coded = { coded_list (coded× coded_ℕ generator_coded) };

    ghost use Rattle.jh_gen.specs.View.{shares_of};

    ghost view = { λ a. shares_of a.items.items };

    ghost size = { size_shares };

    ghost use Rattle.jh_gen.specs.FallsInside.{shares_fall};

    ghost size_decreases = { λ a h. shares_fall a };
}

/// A generator within another. A contract sees the generator.
#[cycle(generator)]
#[derive(Debug, Drop)]
pub struct Inner {
    pub(crate) boxed: Box<Gen>,
}

impl Model for Inner {
    ghost use Rattle.jh_gen.specs.Generator.{Generator, generator_size};
    ghost use Rattle.jh_gen.specs.Code.{generator_coded};

    ghost Value = { Generator };

    ghost coded = { generator_coded };

    ghost use Rattle.jh_gen.specs.View.{generator_of};

    ghost view = { λ a. generator_of a.boxed.value };

    ghost size = { generator_size };

    ghost use Rattle.std.proofs.Common.{arith};
    ghost use Rattle.jh_gen.specs.FallsInside.{gen_falls};

    ghost size_decreases = { λ a h. Prim.omega (arith, gen_falls a.boxed.value) };
}

impl Inner {
    /// A generator to be held by another.
    pub fn of(alloc: Global, source: Gen) -> Result<Inner, AllocError>
        ensures { IfOk result (λ inner. inner ≡ generator_of source) }
    {
        Ok(Inner {
            boxed: Box::new(alloc, source)?,
        })
    }

    /// The generator that is held.
    pub fn as_gen(&self) -> &Gen
        ensures { generator_of result.now ≡ self.now }
    {
        &self.boxed
    }
}

impl Gens {
    /// The generators of a vector. Takes no memory.
    pub fn of(items: Vec<Gen>) -> Gens
        ensures { result ≡ generators_of items.items }
    {
        Gens { items }
    }

    /// The generators in order.
    pub fn as_slice(&self) -> &[Gen]
        ensures { generators_of result.now ≡ self.now }
    {
        self.items.as_slice()
    }

    /// The vector, given back without memory.
    pub fn into_vec(self) -> Vec<Gen>
        ensures { generators_of result.items ≡ self }
    {
        let Gens { items } = self;
        items
    }
}

impl Shares {
    /// The shares of a vector, each a number of client threads and their generator. Takes no
    /// memory.
    pub fn of(items: Vec<(u32, Gen)>) -> Shares
        ensures { result ≡ shares_of items.items }
    {
        Shares { items }
    }

    /// The shares in order.
    pub fn as_slice(&self) -> &[(u32, Gen)]
        ensures { shares_of result.now ≡ self.now }
    {
        &self.items
    }

    /// The vector, given back without memory.
    pub fn into_vec(self) -> Vec<(u32, Gen)>
        ensures { shares_of result.items ≡ self }
    {
        let Shares { items } = self;
        items
    }
}
