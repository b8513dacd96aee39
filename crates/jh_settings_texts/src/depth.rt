//! How deep the text of a generator is nested.

ghost use Rattle.std.specs.Prelude.{◌↔◌, IsTrue};
ghost use Rattle.jh_edn.specs.Edn.{items_of};
ghost use Rattle.jh_edn.specs.Printable.{ArePrintable, IsPrintable};
ghost use Rattle.jh_ops.specs.declared.call.Call.TheVariants.{Client};
ghost use Rattle.jh_gen.specs.Generator.{row_of, share_list};
ghost use Rattle.jh_gen.specs.View.{generator_of};
ghost use Rattle.jh_gen_texts.specs.GeneratorWritten.{edn_of_call, edn_of_generator};
ghost use Rattle.jh_gen_texts.specs.GeneratorWritten.{values_of_generators, values_of_shares};

use jh_gen::{Gen, Gens, Shares};
use jh_ops::{Call, Request};

/// Whether the text of a request has at most so many levels: none, or one.
fn is_request_within(request: Request, depth: u32) -> bool
    ensures { IsTrue result ↔ IsPrintable depth (edn_of_call (Client request)) }
{
    match request {
        Request::Read => true,
        Request::Write(_number) => depth > 0,
        Request::Cas(_old, _new) => depth > 0,
        Request::Add(_number) => depth > 0,
        Request::Generate => true,
        Request::Txn => true,
    }
}

/// Whether the text of a call has at most so many levels: none, or one.
fn is_call_within(call: Call, depth: u32) -> bool
    ensures { IsTrue result ↔ IsPrintable depth (edn_of_call call) }
{
    match call {
        Call::Client(request) => is_request_within(request, depth),
        Call::Step(_place) => depth > 0,
    }
}

/// Whether the text of a generator has at most so many levels of vectors.
#[cycle(within)]
pub(crate) fn is_within(source: &Gen, depth: u32) -> bool
    ensures { IsTrue result ↔ IsPrintable depth (edn_of_generator (generator_of source.now)) }
{
    if depth == 0 {
        return false;
    }
    let inside = depth - 1;
    // That a number fits its bits, which a text of it needs, is known to the prover where the code reads it.
    match source {
        Gen::Nil => true,
        Gen::Once(call) => is_call_within(*call, inside),
        Gen::Rising(_rise, first) => {
            let _first = *first;
            true
        }
        Gen::Forever(call) => is_call_within(*call, inside),
        Gen::Seq(members) => are_within(members, inside),
        Gen::Limit(most, inner) => {
            let _most = *most;
            is_within(inner.as_gen(), inside)
        }
        Gen::Mix(members) => are_within(members, inside),
        Gen::Phases(members) => are_within(members, inside),
        Gen::Reserve(shares, inner) => {
            shares_are_within(shares, inside) && is_within(inner.as_gen(), inside)
        }
        Gen::EachThread(inner) => is_within(inner.as_gen(), inside),
        Gen::Clients(inner) => is_within(inner.as_gen(), inside),
        Gen::NemesisOnly(inner) => is_within(inner.as_gen(), inside),
    }
}

/// Whether the text of each generator has at most so many levels.
#[cycle(within)]
fn are_within(members: &Gens, depth: u32) -> bool
    ensures { IsTrue result
        ↔ ArePrintable depth (items_of (values_of_generators (row_of members.now))) }
{
    for member in members.as_slice() {
        if !is_within(member, depth) {
            return false;
        }
    }
    true
}

/// Whether the text of the generator of each share has at most so many levels.
#[cycle(within)]
fn shares_are_within(shares: &Shares, depth: u32) -> bool
    ensures { IsTrue result
        ↔ ArePrintable depth (items_of (values_of_shares (share_list shares.now))) }
{
    for (count, part) in shares.as_slice() {
        // Read so that the prover knows that it fits its bits.
        let _count = *count;
        if !is_within(part, depth) {
            return false;
        }
    }
    true
}
