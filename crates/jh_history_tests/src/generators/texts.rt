//! Texts of generators: what is refused, and what each kind holds.

use crate::generators::rows::first_wrong;
use std::test::Fail;

#[test]
fn refuses_what_is_no_generator(rt: HostRuntime) -> Result<(), Fail> {
    let rows = "
        read :nil => Err(BadGenerator)
        read #{:nil} => Err(BadGenerator)
        read [nil] => Err(BadGenerator)
        read [] => Err(BadGenerator)
        read [:frob] => Err(BadGenerator)
        read [:nil 1] => Err(BadGenerator)
        read [:once] => Err(BadGenerator)
        read [:once :frob] => Err(BadGenerator)
        read [:once #a :read] => Err(BadGenerator)
        read [:once [:cas 1]] => Err(BadGenerator)
        read [:once [:step -1]] => Err(BadGenerator)
        read [:rising :a] => Err(BadGenerator)
        read [:rising-write] => Err(BadGenerator)
        read [:seq [:nil] :nil] => Err(BadGenerator)
        read [:limit -1 [:nil]] => Err(BadGenerator)
        read [:limit 4294967296 [:nil]] => Err(BadGenerator)
        read [:limit 1] => Err(BadGenerator)
        read [:reserve] => Err(BadGenerator)
        read [:reserve 1 [:nil]] => Err(BadGenerator)
        read [:reserve [:nil] [:nil] [:nil]] => Err(BadGenerator)
        read [:clients] => Err(BadGenerator)
        read [:nemesis [:nil] [:nil]] => Err(BadGenerator)";
    assert_eq!(rt; first_wrong(rt.alloc(), rows)?, None);
    Ok(())
}

#[test]
fn copies_each_kind(rt: HostRuntime) -> Result<(), Fail> {
    let rows = "
        copy [:nil] => Nil
        copy [:once [:cas 1 -2]] => Once(Client(Cas(1, -2)))
        copy [:rising -7] => Rising(Adds, -7)
        copy [:seq [:rising-write 3] [:once :txn]] => \
        Seq(Gens { items: [Rising(Writes, 3), Once(Client(Txn))] })
        copy [:forever [:step 4294967295]] => Forever(Step(4294967295))
        copy [:seq [:nil] [:once :read] [:seq]] => \
        Seq(Gens { items: [Nil, Once(Client(Read)), Seq(Gens { items: [] })] })
        copy [:limit 3 [:forever :generate]] => Limit(3, Inner { boxed: Forever(Client(Generate)) })
        copy [:mix [:once [:add 5]] [:rising 7]] => Mix(Gens { items: [Once(Client(Add(5))), Rising(Adds, 7)] })
        copy [:phases [:once [:write 0]] [:mix]] => \
        Phases(Gens { items: [Once(Client(Write(0))), Mix(Gens { items: [] })] })
        copy [:reserve 1 [:rising 2] 0 [:nil] [:once :read]] => \
        Reserve(Shares { items: [(1, Rising(Adds, 2)), (0, Nil)] }, Inner { boxed: Once(Client(Read)) })
        copy [:each-thread [:limit 0 [:nil]]] => EachThread(Inner { boxed: Limit(0, Inner { boxed: Nil }) })
        copy [:clients [:each-thread [:nil]]] => Clients(Inner { boxed: EachThread(Inner { boxed: Nil }) })
        copy [:nemesis [:phases [:once [:step 0]]]] => \
        NemesisOnly(Inner { boxed: Phases(Gens { items: [Once(Step(0))] }) })";
    assert_eq!(rt; first_wrong(rt.alloc(), rows)?, None);
    Ok(())
}
