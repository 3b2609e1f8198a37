//! Canonical texts of logs, with records of every kind.

use log_round_trip::canonical;
use std::test::Fail;

// Each text is that of the log, and its own.
#[test]
fn texts_of_logs(rt: HostRuntime) -> Result<(), Fail> {
    let cases: [(&[u8], &[u8]); 3] = [
        (
            b"\xef\xbb\xbf# a,b\n\n\"mission\" , 1,+10,05\nsignal,Z_9,-500000000,+500000000\nvar,minimum,-0,00\nsignal,v,0,9\nvar,z,0,9\nderiv,Z_9,v\nbound,v,0,+10,-1,1\nat,v,03,1,+2\neval,v,minimum,z\nsettle\n",
            b"#\nmission,1,10,5\nsignal,Z_9,-500000000,500000000\nvar,minimum,0,0\nsignal,v,0,9\nvar,z,0,9\nderiv,Z_9,v\nbound,v,0,10,-1,1\nat,v,3,1,2\neval,v,minimum,z\nsettle\n",
        ),
        (
            b"mission,1,10,5\nbeacon,b,0,1,0,1\nbeacon,c,0,1,0,1\nvar,p,0,9\nvar,q,0,9\nrange,0,9,p,q,b.x,b.y\nrange3,0,9,p,q,b.x,b.y,c.x,c.y\nconstell,b.x,c.y\nexprv,\" max(b.x,b.y)*-2 > 007 \"\nexprv,1<2\n",
            b"mission,1,10,5\nbeacon,b,0,1,0,1\nbeacon,c,0,1,0,1\nvar,p,0,9\nvar,q,0,9\nrange,0,9,p,q,b.x,b.y\nrange3,0,9,p,q,b.x,b.y,c.x,c.y\nconstell,b.x,c.y\nexprv,\"(max(b.x,b.y)*(-2))>7\"\nexprv,\"1<2\"\n",
        ),
        (
            b"mission,2,8,5\ncut,+6\n # late \ncut,02\nsignal,x,0,9\nsignal,y,0,9\nbeacon,b,1,2,3,4\nvar,s,0,9\nping,y,x,1,8,?,5,6\nping,x,y,2,2,b,7,8\ndelay,x,y,s\nexpr,y<=x+b.y\nrevisit,y,x,7,3\n",
            b"mission,2,8,5\ncut,6\n#\ncut,2\nsignal,x,0,9\nsignal,y,0,9\nbeacon,b,1,2,3,4\nvar,s,0,9\nping,y,x,1,8,?,5,6\nping,x,y,2,2,b,7,8\ndelay,x,y,s\nexpr,\"y<=(x+b.y)\"\nrevisit,y,x,7,3\n",
        ),
    ];
    for (log, want) in cases {
        for text in [log, want] {
            match canonical(rt.alloc(), text) {
                Ok(text) => assert_eq!(rt; text.as_slice(), want),
                Err(fault) => assert!(rt; false, "{fault:?}"),
            }
        }
    }
    Ok(())
}
