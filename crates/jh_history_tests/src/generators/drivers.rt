//! Drivers, asked row by row.

use crate::generators::rows::{drive, first_wrong};
use jh_gen::{Driver, DriverError, Ended, GenAnswer, GenError, GenTextError, MAX_CALLS, Thread};
use std::test::Fail;

/// What each kind of generator offers: phases, a mixture, copies, a reserve, and the greatest add.
#[test]
fn offers_by_kind(rt: HostRuntime) -> Result<(), Fail> {
    let rows = "
        driver 2 [:phases [:limit 1 [:forever :read]] [:once [:add 1]]] => Ok(())
        ask 0 client-0 => Ok(Call(Client(0), Client(Read)))
        ask 0 client-1 => Ok(Pending)
        ask 0 client-0 => Err(BusyThread)
        end info client-0 => Ok(())
        process client-0 => Some(Client(2))
        ask 0 client-1 => Ok(Call(Client(1), Client(Add(1))))
        end ok client-1 => Ok(())
        ask 0 client-0 => Ok(Done)
        end ok client-0 => Err(NothingOpen)
        driver 2 [:mix [:once :read] [:once :generate]] => Ok(())
        ask 3 client-0 => Ok(Call(Client(0), Client(Generate)))
        ask 3 client-1 => Ok(Call(Client(1), Client(Read)))
        driver 2 (:clients [:each-thread [:once :read]]) => Ok(())
        ask 0 client-0 => Ok(Call(Client(0), Client(Read)))
        end ok client-0 => Ok(())
        ask 0 client-0 => Ok(Pending)
        ask 0 client-1 => Ok(Call(Client(1), Client(Read)))
        end fail client-1 => Ok(())
        ask 0 client-0 => Ok(Done)
        driver 2 [:reserve 1 [:forever :read] [:once :generate]] => Ok(())
        ask 0 client-0 => Ok(Call(Client(0), Client(Read)))
        ask 0 client-1 => Ok(Call(Client(1), Client(Generate)))
        ask 0 nemesis => Ok(Pending)
        ask 0 client-2 => Err(NoSuchThread)
        process client-2 => None
        process nemesis => Some(Nemesis)
        driver 2 [:rising 9223372036854775807] => Ok(())
        ask 0 client-0 => Ok(Call(Client(0), Client(Add(9223372036854775807))))
        end ok client-0 => Ok(())
        ask 0 client-0 => Ok(Done)
        driver 2 [:rising-write -1] => Ok(())
        ask 0 client-1 => Ok(Call(Client(1), Client(Write(-1))))
        ask 0 client-0 => Ok(Call(Client(0), Client(Write(0))))
        driver 1 [:once :txn] => Ok(())
        ask 0 client-0 => Ok(Call(Client(0), Client(Txn)))";
    assert_eq!(rt; first_wrong(rt.alloc(), rows)?, None);
    Ok(())
}

/// Calls that are read, generators that are spent from the start, and why no driver is made.
#[test]
fn drives_what_is_read(rt: HostRuntime) -> Result<(), Fail> {
    let rows = "
        driver 1 [:once [:write -7]] => Ok(())
        ask 0 nemesis => Ok(Call(Nemesis, Client(Write(-7))))
        driver 1 [:seq [:once [:cas 1 2]]] => Ok(())
        ask 0 nemesis => Ok(Call(Nemesis, Client(Cas(1, 2))))
        driver 1 [:nemesis [:once [:step 4294967295]]] => Ok(())
        ask 0 nemesis => Ok(Call(Nemesis, Step(4294967295)))
        driver 2 [:nil] => Ok(())
        ask 0 client-0 => Ok(Done)
        driver 2 [:seq] => Ok(())
        ask 0 client-0 => Ok(Done)
        driver 2 [:mix] => Ok(())
        ask 0 client-0 => Ok(Done)
        driver 2 [:phases] => Ok(())
        ask 0 client-0 => Ok(Done)
        driver 2 [:reserve [:nil]] => Ok(())
        ask 0 client-0 => Ok(Done)
        driver 2 [:limit 0 [:forever :read]] => Ok(())
        ask 0 client-0 => Ok(Done)
        driver 2 [:reserve 0 [:forever :read] 2 [:nil] [:nil]] => Ok(())
        ask 0 client-0 => Ok(Done)
        driver 0 [:nil] => Err(BadClients)
        driver 17 [:nil] => Err(BadClients)
        driver 2 [:reserve 3 [:nil] [:nil]] => Err(BadReserve)
        driver 16 [:seq [:clients [:reserve 1 [:nil] 4294967295 [:nil] [:nil]]]] => Err(BadReserve)";
    assert_eq!(rt; first_wrong(rt.alloc(), rows)?, None);
    Ok(())
}

/// How many calls a thread is given until the driver refuses; each is completed.
fn given_calls(driver: &mut Driver, thread: Thread) -> u32 {
    let mut given = 0u32;
    for _ in 0..MAX_CALLS {
        if matches!(driver.ask(thread, 0), Ok(GenAnswer::Call(_, _))) {
            given = given.saturating_add(1);
        }
        let _ = driver.complete(thread, Ended::Ok);
    }
    given
}

#[test]
fn a_million_calls_are_the_most(rt: HostRuntime) -> Result<(), Fail> {
    let mut driver = drive(rt.alloc(), "[:forever :read]", 1)??;
    assert_eq!(rt; given_calls(&mut driver, Thread::Client(0)), MAX_CALLS);
    assert_eq!(rt; driver.ask(Thread::Client(0), 0), Err(GenError::TooManyOps));
    Ok(())
}

#[test]
fn errors_have_messages(rt: HostRuntime) -> Result<(), Fail> {
    let message = format!(in rt.alloc();
        "{}, {}; {}, {}, {}; {}, {}, {}, {}",
        GenTextError::BadGenerator,
        GenTextError::OutOfMemory,
        DriverError::BadClients,
        DriverError::BadReserve,
        DriverError::OutOfMemory,
        GenError::NoSuchThread,
        GenError::BusyThread,
        GenError::TooManyOps,
        GenError::NothingOpen
    );
    let expected =
        "bad generator, out of memory; bad clients, bad reserve, out of memory; no such thread, busy thread, \
        too many operations, nothing open";
    // A refused growth leaves no text to compare.
    if let Ok(message) = message {
        assert_eq!(rt; message.as_str(), expected);
    }
    Ok(())
}
