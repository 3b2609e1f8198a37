//! A demo mission, with lines of its log and places of its course that another program worked out from the definition.

use demo_mission::make_demo;
use std::test::Fail;

const FIRST_LINES: &[u8] =
    b"mission,1,2000,10\nsignal,x,-50000,50000\nsignal,y,-50000,50000\nsignal,u,-25,25\nsignal,v,-25,25\nderiv,x,u\nderiv,y,v\nat,x,0,0,0\nat,y,0,0,0\nbound,u,0,99,14,16\nbound,v,0,99,-12,-10\n";

const LAST_LINES: &[u8] =
    b"ping,x,y,1923,1927,b3,15387,15394\nping,x,y,1973,1977,b4,12200,12207\nrevisit,x,y,200,200\n";

#[test]
fn makes_the_log_of_a_seed(rt: HostRuntime) -> Result<(), Fail> {
    let demo = make_demo(rt.alloc(), 7)?;
    let log = demo.log.as_slice();
    assert_eq!(rt; log.len(), 2537);
    assert!(rt; log.starts_with(FIRST_LINES) && log.ends_with(LAST_LINES));
    for (tick, x, y) in [
        (0, 0, 0),
        (100, 1500, -1100),
        (1025, -4400, -400),
        (2000, -7500, 3400),
    ] {
        assert_eq!(rt; demo.x.get(tick).copied(), Some(x));
        assert_eq!(rt; demo.y.get(tick).copied(), Some(y));
    }
    Ok(())
}
