//! Openings of exchanges over a network in memory.

use std::alloc::Global;
use std::test::Fail;
use sz_base::{PutFault, Target};
use sz_exchange::open;
use sz_fixtures::{Reply, scripted};
use sz_io::{ExchangeEnd, Net};

// Whether there is a server, the call of the network that fails, what the opening comes to, what was sent, and how the
// exchange ended.
type Row = (bool, u64, Result<(), PutFault>, &'static [u8], ExchangeEnd);

const ROWS: [Row; 4] = [
    (true, 0, Ok(()), b"GET", ExchangeEnd::Left),
    (false, 0, LOST, b"", ExchangeEnd::Lost),
    (true, 1, LOST, b"", ExchangeEnd::Lost),
    (true, 2, LOST, b"", ExchangeEnd::Lost),
];

const LOST: Result<(), PutFault> = Err(PutFault::Failed);

const SILENCE: Reply<'static> = Reply {
    bytes: b"",
    closed: true,
};

fn shows(alloc: Global, row: Row) -> Result<bool, Fail> {
    let (serves, fails, opened, sent, end) = row;
    let mut net = match serves {
        true => scripted(alloc, &[SILENCE], fails)?,
        false => scripted(alloc, &[], fails)?,
    };
    let target = Target::read(alloc, b"10.0.0.2:8443")?;
    let came = open(&mut net, &target, 0, b"GET");
    net.close();
    let [exchange] = net.past() else {
        return Err("not one exchange".into());
    };
    Ok(came == opened && exchange.sent.as_slice() == sent && exchange.end == end)
}

#[test]
fn a_request_is_sent_whole_or_the_exchange_is_lost(rt: HostRuntime) -> Result<(), Fail> {
    for row in ROWS {
        assert!(rt; shows(rt.alloc(), row)?);
    }
    Ok(())
}
