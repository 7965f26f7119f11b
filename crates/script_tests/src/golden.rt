//! Scripts whose listings another program computed from the rules.
use crate::plays::{Worked, begun, other_listing, push_event, push_state};
use mos_fields::NoMemory;
use std::alloc::Global;
use std::test::Fail;

/// Worlds of 60 events: how many devices; events, each with a colon and its outcome, and a semicolon between two; and behind
/// a `=` the state lines.
const SHORT: &str = "\
devices 1
dial 1: connection 1; open 1: connection 2; want 1 r: done; dbeat 1: done; accept 1 2: done; read 1: heartbeat
cmd create r G:y,z: OK; cmd idrop r G y: OK; cmd meta r slug5: OK; cmd meta r slug6: OK; want 1 r: done
cmd ready r: OK; miss 1: -; cmd meta r slug8: OK; cmd script r G text92: OK; cmd script r G text98: OK
cmd notready r: OK; cmd insert r G B F:y,x: OK; open 1: connection 3; want 1 r: done; accept 1 3: done
read 1: heartbeat; want 1 r: done; cmd isub r B y z y: MISSING y; restart kept: done; open 1: connection 4
accept 1 4: done; hangup 1: done; read 1: heartbeat; dial 1: connection 5; reboot 1: done; dial 1: connection 6
open 1: connection 7; accept 1 7: done; read 1: heartbeat; back 1: taken; send 1: nothing; send 1: nothing
send 1: nothing; admit 1 6: done; cut 1: done; want 1 r: done; ask 1: roReqAll; admit 1 1: done
open 1: connection 8; dial 1: connection 9; admit 1 9: done; want 1 r: done; ask 1: roReqAll; hangup 1: done
send 1: nothing; read 1: -; back 1: -; cmd meta r slug8: OK; cmd meta r slug9: OK; send 1: nothing
hear 1: roListAll 1; open 1: connection 10; accept 1 10: done; read 1: heartbeat
=
order r 12 B F:y,x G!:z
server 1 greeting 10
view 1 r out
device 1 upper 10 dial - idle
held 1 r out 0 none

devices 2
dial 2: connection 1; admit 2 1: done; cmd create r D G C:y,x B:z,y: OK; open 2: connection 2
open 1: connection 3; accept 2 2: done; cmd create q C G:y E: OK; accept 1 3: done; dial 1: connection 4
cmd ready r: OK; read 1: heartbeat; admit 1 4: done; ask 2: roReqAll; cmd ready q: OK; dbeat 2: done
ask 1: roReqAll; back 1: taken; open 2: connection 5; accept 2 5: done; dbeat 1: done; hear 1: roListAll 2
ask 1: nothing; send 1: nothing; send 1: nothing; hear 2: roListAll 2; want 2 r: done; ask 2: nothing
hangup 2: done; cmd replace r Z: OK; send 2: nothing; read 2: heartbeat; back 2: taken; cmd meta r slug3: OK
dial 1: connection 6; send 2: nothing; cmd ready q: OK; send 2: nothing; admit 1 6: done; cmd ready r: OK
cmd script r Z text53: OK; dbeat 2: -; send 1: edit r 2; send 2: nothing; open 2: connection 7; accept 2 7: done
read 2: heartbeat; cmd iswap r Z x x: MISSING x; cmd ready q: OK; open 2: connection 8; accept 2 8: done
read 2: heartbeat; dial 2: connection 9; admit 2 9: done; cmd ready q: OK; ask 2: roReqAll
open 2: connection 10; accept 2 10: done; open 1: connection 11; accept 1 11: done; read 2: heartbeat
=
order q 5 C G:y E
order r 6 Z!
server 1 greeting 11
view 1 q out
view 1 r out
device 1 upper 11 dial 6 idle
server 2 greeting 10
view 2 q out
view 2 r out
device 2 upper 10 dial 9 roReqAll
held 2 r out 0 none

devices 3
cut 1: -; beat 2: -; dbeat 2: -; beat 3: -; dial 1: connection 1; dial 1: connection 2
cmd create q G:z F:x,z D:z: OK; accept 1 0: -; dial 2: connection 3; open 2: connection 4; cut 1: -; beat 2: -
dial 1: connection 5; dbeat 3: -; accept 1 0: -; dbeat 3: -; admit 2 3: done; cut 2: done; accept 1 0: -
open 2: connection 6; cmd create r: OK; open 3: connection 7; dbeat 2: done; ask 2: heartbeat; dbeat 1: done
cmd insert q D C:z: OK; open 1: connection 8; dial 3: connection 9; admit 1 5: done; dbeat 1: done
admit 3 9: done; ask 3: nothing; dial 1: connection 10; accept 1 8: done; cut 3: done; cmd replace q F: OK
accept 2 6: done; accept 2 4: done; cut 1: done; cmd insert r - C E:z,x: OK; cmd script r E text93: OK
ask 3: nothing; accept 3 7: done; open 2: connection 11; cut 1: -; read 2: heartbeat; accept 2 11: done
open 1: connection 12; dial 1: connection 13; accept 1 12: done; dbeat 3: done; dial 3: connection 14
read 2: heartbeat; beat 2: -; cmd meta r slug1: OK; cmd idrop r C x: MISSING x; cmd imove r C - x: MISSING x
dbeat 2: done; admit 3 14: done; cmd swap q F F: OK
=
order q 4 F
order r 4 C E!:z,x
server 1 greeting 12
view 1 q out
view 1 r out
device 1 upper 12 dial 13 idle
server 2 greeting 11
view 2 q out
view 2 r out
device 2 upper 11 dial 3 heartbeat
server 3 down
view 3 q out
view 3 r out
device 3 upper 7 dial 14 idle

devices 3
beat 2: -; cmd create r F B:y A:z: OK; beat 3: -; cmd iinsert r A - x y: OK; beat 2: -
cmd create r: ALREADY THERE r; beat 3: -; open 3: connection 1; dial 2: connection 2; beat 3: -; beat 1: -
cmd replace r G C D: OK; beat 1: -; beat 1: -; beat 1: -; open 2: connection 3; cmd script r D text35: OK
dial 1: connection 4; cmd idrop r D z: MISSING z; beat 1: -; open 1: connection 5; cmd script r C text48: OK
beat 3: -; admit 1 4: done; beat 2: -; beat 3: -; beat 2: -; cmd replace r F: OK; beat 3: -; beat 1: -
cmd script r F text78: OK; beat 1: -; accept 2 3: done; beat 3: -; beat 1: -; cmd delete r: OK; beat 2: -
beat 1: -; admit 2 2: done; cmd create r F:x: OK; beat 3: -; beat 1: -; read 2: heartbeat
cmd script r F text96: OK; beat 3: -; beat 2: -; beat 3: -; beat 2: -; cmd replace r A G:z,x: OK; beat 2: -
beat 2: -; beat 3: -; beat 2: -; beat 2: -; cmd ready r: OK; beat 3: -; beat 3: -; beat 3: -; ask 2: roReqAll
cmd delete r: OK
=
order r 13 none
server 1 greeting 5
view 1 r out
device 1 upper - dial 4 idle
server 2 greeting 3
view 2 r out
device 2 upper 3 dial 2 roReqAll
server 3 greeting 1
view 3 r out
device 3 upper - dial - idle

devices 3
dial 2: connection 1; dbeat 3: -; dial 1: connection 2; want 1 r: done; admit 2 1: done; open 2: connection 3
cmd create r B:y: OK; cmd create r: ALREADY THERE r; accept 2 3: done; cmd script r B text76: OK
read 2: heartbeat; cmd replace r E: OK; cmd insert r E C:y,z: OK; cmd script r E text97: OK
dial 3: connection 4; open 3: connection 5; accept 3 5: done; cmd replace r: OK; ask 2: roReqAll
cmd insert r - A E:x: OK; cmd delete r: OK; open 1: connection 6; want 3 r: done; cmd create r G: OK
cmd script r G text53: OK; open 1: connection 7; cmd idrop r G x: MISSING x; cmd script r G text53: OK
hear 2: roListAll 1; admit 1 2: done; back 2: taken; accept 1 7: done; open 1: connection 8
cmd imove r G - z: MISSING z; admit 1 0: -; cmd replace r G:y,z B E:z D:z: OK; ask 1: roReqAll; hangup 2: done
dial 2: connection 9; hangup 1: done; dial 1: connection 10; read 1: heartbeat; cmd script r G text78: OK
cmd script r G text72: OK; admit 1 10: done; cmd swap r G D: OK; cmd script r G text9: OK; dial 1: connection 11
cmd replace r: OK; send 2: edit r 11; cmd insert r - C:y,z B:z: OK; open 1: connection 12; accept 1 12: done
read 1: heartbeat; leave 2: done; cmd replace r B:x,z: OK; cmd script r B text29: OK; admit 1 11: done
lose 11 s 2: done; decks 3 1: done
=
order r 20 B!:x,z
server 1 greeting 12
view 1 r out
device 1 upper 12 dial 11 idle
held 1 r out 0 none
server 2 open 3 edit r 11
view 2 r from 11
device 2 upper - dial 9 idle
server 3 greeting 5
view 3 r out
device 3 upper 5 dial 4 idle
held 3 r out 0 none

devices 3
cmd create q G C:z,x F: OK; cmd create r F B: OK; dial 3: connection 1; dial 2: connection 2
cmd script q E text97: MISSING E; open 1: connection 3; cmd delete q: OK; dial 1: connection 4; admit 3 1: done
open 3: connection 5; ask 3: nothing; cmd create q E: OK; admit 1 4: done; cmd replace r: OK; accept 3 5: done
cmd insert q - F:y: OK; cmd notready q: OK; ask 1: nothing; open 2: connection 6; cmd replace q A B C: OK
accept 2 6: done; cmd notready r: OK; accept 1 3: done; cut 2: done; cmd replace q E: OK; read 1: heartbeat
ask 3: roReqAll; read 2: heartbeat; ask 1: roReqAll; hear 3: roListAll 2; read 3: heartbeat; hear 1: roListAll 2
cmd insert q - F: OK; open 2: connection 7; cmd delete r: OK; admit 2 2: done; ask 2: roReqAll
cmd create r F: OK; got 1: taken; ask 1: roReq q; cmd replace r C F D E:x,z: OK; hear 1: roAck q NOT NOW
accept 2 7: done; got 1: taken; ask 1: roReq q; read 2: heartbeat; got 3: taken; hear 2: roListAll 2
cmd swap r E D: OK; hear 1: roAck q NOT NOW; cmd script q E text98: OK; ask 3: roReq q
cmd create q: ALREADY THERE q; cmd script q F text78: OK; cmd imove q E - y: MISSING y; hear 3: roAck q NOT NOW
got 2: taken; ask 2: roReqAll; cmd delete q: OK; hear 2: roListAll 1
=
order q 11 none
order r 7 C F E:x,z D
server 1 greeting 3
view 1 q out
view 1 r out
device 1 upper 3 dial 4 roReq q
held 1 q asked 0 none
held 1 r out 0 none
server 2 greeting 7
view 2 q out
view 2 r out
device 2 upper 7 dial 2 roReqAll
held 2 q out 0 none
held 2 r out 0 none
server 3 greeting 5
view 3 q out
view 3 r out
device 3 upper 5 dial 1 roReq q
held 3 q asked 0 none
held 3 r out 0 none";

/// Worlds of 120 events.
const LONGER: &str = "\
devices 2
open 1: connection 1; dial 1: connection 2; dial 2: connection 3; admit 2 3: done; want 1 r: done
open 2: connection 4; admit 1 2: done; ask 1: roReq r; ask 2: nothing; ask 2: nothing; ask 2: nothing
ask 2: nothing; hear 1: roAck r NOT NOW; ask 2: nothing; ask 2: nothing; cmd create r B A E: OK
cmd iswap r B y y: MISSING y; cmd script r E text99: OK; ask 2: nothing; ask 2: nothing; accept 1 1: done
accept 2 4: done; read 1: heartbeat; ask 2: roReqAll; read 2: heartbeat; hear 2: roListAll 1; got 2: taken
ask 2: roReq r; got 1: taken; back 1: taken; ask 1: roReqAll; back 2: taken; hear 1: roListAll 1
hear 2: roList r 2; got 2: taken; ask 2: heartbeat; got 1: taken; hear 2: heartbeat; got 2: taken
ask 1: roReq r; ask 2: nothing; ask 2: nothing; ask 2: nothing; cmd iinsert r E - x: OK; ask 2: nothing
ask 2: nothing; ask 2: nothing; ask 2: nothing; ask 2: nothing; cmd iinsert r E - z: OK; send 2: script r 1 2
hear 1: roList r 4; ask 2: nothing; ask 2: nothing; send 1: nothing; got 1: taken; ask 2: nothing
ask 1: heartbeat; read 2: roAck r OK; ask 2: nothing; hear 1: heartbeat; ask 2: nothing; miss 2: done
got 1: taken; send 1: script r 1 4; read 1: roAck r OK; ask 1: nothing; back 2: taken; send 2: edit r 2
admit 1 0: -; read 2: roAck r OK; ask 1: nothing; back 2: taken; cmd script r B text37: OK
cmd script r B text34: OK; cmd sub r A G:x,z D: OK; ask 1: nothing; cmd iswap r E x z: OK; cmd isub r G z y: OK
cmd drop r B D: OK; cmd script r G text44: OK; cmd swap r E G: OK; cmd create r C:y G:z,x D: ALREADY THERE r
ask 1: nothing; send 2: edit r 3; ask 1: nothing; ask 1: nothing; ask 1: nothing; ask 1: nothing
read 2: roAck r OK; ask 1: nothing; back 1: taken; dial 2: connection 5; send 1: edit r 4; admit 2 5: done
ask 1: nothing; read 1: roAck r OK; ask 2: roReq r; ask 1: nothing; hear 2: roAck r NOT NOW; back 1: taken
send 1: edit r 5; back 2: taken; send 2: edit r 4; ask 1: nothing; ask 1: nothing; read 2: roAck r NOT IN STEP
ask 1: nothing; ask 1: nothing; ask 1: nothing; ask 1: nothing; ask 1: nothing; read 1: roAck r OK
ask 1: nothing; back 1: taken; send 1: edit r 6; ask 1: nothing; ask 1: nothing; ask 1: nothing; ask 1: nothing
=
order r 12 E!:z,x G!:x,y
server 1 open 1 edit r 6
view 1 r in 6
device 1 upper 1 dial 2 idle
held 1 r in 6 B! A E!:x,z
server 2 open 4 edit r 4
view 2 r in 4
device 2 upper 4 dial 5 roReq r
held 2 r crossed 4 B A E!:x,z

devices 2
accept 1 0: -; open 2: connection 1; accept 2 1: done; want 2 r: done; ask 2: -; hangup 2: -
cmd replace r Z: MISSING r; send 2: nothing; read 2: heartbeat; back 2: taken; cmd meta r slug5: MISSING r
send 2: nothing; cmd create r A:y,x E G:x,z: OK; send 2: edit r 0; open 1: connection 2; cmd iswap r G x x: OK
accept 1 2: done; read 1: heartbeat; cmd iswap r E x y: MISSING x; hangup 1: -; back 1: taken
cmd script r G text13: OK; send 1: nothing; cmd imove r G - x: OK; cmd script r G text84: OK
cmd insert r E B F: OK; admit 1 0: -; cmd script r E text9: OK; dial 1: connection 3; send 1: nothing
read 2: roAck r OK; dial 2: connection 4; cmd swap r B G: OK; send 1: nothing; leave 1: done
cmd insert r G C D:z: OK; cmd insert r B B F: ALREADY THERE B; send 1: nothing; open 1: connection 5
admit 2 4: done; ask 2: roReqAll; accept 1 5: done; cmd script r F text70: OK; want 2 r: done
hear 2: roListAll 1; got 2: taken; ask 2: roReq r; read 1: heartbeat; cut 1: done; admit 1 3: done
cmd idrop r E y: MISSING y; open 1: connection 6; cmd insert r C B: ALREADY THERE B; dial 2: connection 7
ask 1: roReqAll; back 2: taken; open 1: connection 8; accept 1 8: done; cmd ready r: OK
cmd sub r B E G: ALREADY THERE E; cmd replace r A G E: OK; admit 2 7: done; ask 2: roReq r
cmd script r G text16: OK; cmd move r A G: OK; hear 1: roListAll 1; hear 2: roList r 14
cmd idrop r G z: MISSING z; got 1: taken; dial 1: connection 9; admit 1 9: done; got 2: taken; ask 2: heartbeat
ask 1: roReqAll; hangup 2: done; dial 2: connection 10; admit 2 10: done; hear 1: roListAll 1; leave 1: done
ask 2: roReq r; hear 2: roList r 14; send 2: nothing; send 2: nothing; cmd create r: ALREADY THERE r
got 1: taken; ask 1: roReq r; dial 1: connection 11; want 1 r: done; send 2: nothing; got 2: taken
open 1: connection 12; cmd swap r E A: OK; ask 2: heartbeat; cmd iswap r E x x: MISSING x; accept 1 12: done
read 1: heartbeat; hear 2: heartbeat; admit 1 11: done; send 2: script r 12 14; hear 1: -; dial 2: connection 13
admit 2 13: done; back 1: taken; cmd replace r F G:x,y B:z,x E: OK; ask 2: roReq r; hear 2: roAck r NOT NOW
cmd insert r E D:x,z G: ALREADY THERE G; ask 1: roReqAll; want 1 r: done; hear 1: roListAll 1
cmd script r G text17: OK; send 1: edit r 15; got 1: taken; read 2: roAck r NOT IN STEP; got 2: taken
back 2: taken; cmd script r E text11: OK; send 2: nothing; ask 1: roReq r; want 1 r: done
=
order r 18 F G!:x,y B:z,x E!
server 1 open 12 edit r 15
view 1 r from 15
device 1 upper 12 dial 11 roReq r
held 1 r asked 0 none
server 2 open 1 idle
view 2 r out
device 2 upper 1 dial 13 idle
held 2 r out 14 G A E

devices 3
dial 1: connection 1; cmd create q F G:y,z B:y,x: OK; dial 2: connection 2; open 2: connection 3
open 1: connection 4; open 3: connection 5; dial 3: connection 6; cmd script q B text97: OK; cmd create r: OK
cmd swap q B F: OK; cmd idrop q F z: MISSING z; cmd swap q G F: OK; cmd insert r - G:x D: OK
cmd imove r G - x: OK; cmd replace r C: OK; cmd imove q F - y: MISSING y; cmd ready r: OK
cmd imove q F - x: MISSING x; cmd script r C text32: OK; cmd script q B text97: OK; cmd insert r - E D:z,y: OK
cmd ready r: OK; cmd swap q F B: OK; cmd meta q slug1: OK; cmd drop r E: OK; cmd script r D text79: OK
cmd meta q slug6: OK; cmd script r D text18: OK; cmd swap r C C: OK; cmd iinsert q B - z: OK
cmd iinsert r C - y: OK; admit 2 2: done; accept 1 4: done; accept 3 5: done; cmd meta q slug7: OK
admit 3 6: done; read 3: heartbeat; back 3: taken; read 1: heartbeat; cmd sub r C F E:y,x: OK; accept 2 3: done
back 1: taken; cmd idrop r D y: OK; read 2: heartbeat; ask 3: roReqAll; back 2: taken; send 2: nothing
send 1: nothing; send 1: nothing; ask 2: roReqAll; cmd isub q B y x: ALREADY THERE x; hear 2: roListAll 2
cmd insert q - A:y: OK; send 2: nothing; cmd sub q G E:y,x: OK; got 2: taken; admit 1 1: done; send 2: nothing
hear 3: roListAll 2; got 3: taken; ask 2: roReq q; send 2: nothing; ask 1: roReqAll; cmd meta q slug6: OK
ask 3: roReq q; hear 1: roListAll 2; hear 2: roList q 13; send 1: nothing; cmd iswap r D z z: OK
send 1: nothing; got 1: taken; send 1: nothing; ask 1: roReq q; send 1: nothing; cmd meta q slug4: OK
cmd meta q slug5: OK; got 2: taken; cmd sub r D G: OK; send 3: nothing; ask 2: heartbeat; hear 2: heartbeat
send 1: nothing; send 1: nothing; send 1: nothing; got 2: taken; send 3: nothing; send 3: nothing
send 2: script q 4 13; send 3: nothing; send 3: nothing; cmd insert r - C B: OK; send 3: nothing; ask 2: roReq r
send 1: nothing; read 2: roAck q OK; back 2: taken; send 3: nothing; send 2: edit q 13; read 2: roAck q OK
send 3: nothing; send 1: nothing; hear 2: roList r 18; send 1: nothing; hear 1: roList q 15; send 3: nothing
got 1: taken; send 3: nothing; got 2: taken; back 2: taken; ask 1: heartbeat; send 3: nothing
cmd meta r slug7: OK; ask 2: heartbeat; cmd drop q B: OK; hear 1: heartbeat; send 2: edit q 14
hear 2: heartbeat; read 2: roAck q OK; send 3: nothing; got 1: taken
=
order q 16 F E:y,x A:y
order r 19 F E:y,x G C B
server 1 open 4 idle
view 1 q in 15 scripts 1
view 1 r out
device 1 upper 4 dial 1 idle
held 1 q in 15 F B:y,x,z E:y,x A:y
held 1 r out 0 none
server 2 open 3 edit q 14
view 2 q in 14
view 2 r in 18
device 2 upper 3 dial 2 heartbeat
held 2 q in 15 F B!:y,x,z E:y,x A:y
held 2 r in 18 F E:y,x G C B
server 3 open 5 idle
view 3 q out
view 3 r out
device 3 upper 5 dial 6 roReq q
held 3 q asked 0 none
held 3 r out 0 none

devices 1
open 1: connection 1; accept 1 1: done; dial 1: connection 2; cmd create q: OK; read 1: heartbeat
admit 1 2: done; ask 1: roReqAll; hear 1: roListAll 1; back 1: taken; admit 1 0: -; send 1: nothing
send 1: nothing; cmd meta q slug6: OK; send 1: nothing; send 1: nothing; got 1: taken; send 1: nothing
send 1: nothing; ask 1: roReq q; hear 1: roList q 2; send 1: nothing; send 1: nothing; got 1: taken
beat 1: done; send 1: heartbeat; cmd ready q: OK; ask 1: heartbeat; hear 1: heartbeat; got 1: taken
ask 1: nothing; ask 1: nothing; ask 1: nothing; ask 1: nothing; hear 1: -; read 1: heartbeat; cmd create r: OK
ask 1: nothing; ask 1: nothing; ask 1: nothing; back 1: taken; hangup 1: done; send 1: edit q 2
dial 1: connection 3; admit 1 3: done; read 1: roAck q OK; cmd insert r - A:z: OK; cmd iswap r A z z: OK
ask 1: roReq q; back 1: taken; send 1: edit r 0; hear 1: roList q 3; got 1: taken; cmd iinsert r A z x y: OK
read 1: roAck r OK; cmd move r - G A: MISSING G; ask 1: heartbeat; back 1: taken; hear 1: heartbeat
got 1: taken; ask 1: nothing; send 1: again q 3; read 1: roAck q OK; back 1: taken; send 1: edit r 1
hangup 1: done; read 1: roAck r OK; cmd insert q - E B:x,z: OK; cmd idrop q E x: MISSING x; dial 1: connection 4
want 1 r: done; open 1: connection 5; cmd create r A G E F:y,z: ALREADY THERE r; accept 1 5: done
admit 1 4: done; ask 1: roReqAll; hear 1: roListAll 2; read 1: heartbeat; got 1: taken; ask 1: roReq q
hear 1: roAck q NOT NOW; got 1: taken; back 1: taken; send 1: nothing; send 1: nothing; send 1: nothing
cmd create r C G D A:z: ALREADY THERE r; ask 1: roReq q; hear 1: roList q 4; got 1: taken; send 1: nothing
ask 1: heartbeat; send 1: nothing; cmd meta r slug3: OK; beat 1: done; send 1: heartbeat; hear 1: heartbeat
read 1: heartbeat; got 1: taken; ask 1: roReq r; hear 1: roList r 5; cmd meta r slug4: OK; back 1: taken
got 1: taken; send 1: nothing; ask 1: heartbeat; hear 1: heartbeat; got 1: taken; send 1: edit r 5
cmd script r A text94: OK; cmd ready q: OK; ask 1: nothing; cmd swap r A A: OK; read 1: roAck r OK
back 1: taken; cmd script r A text35: OK; cmd script r A text35: OK; cmd iswap q B x x: OK; send 1: edit r 6
read 1: roAck r OK; back 1: taken
=
order q 6 E B:x,z
order r 10 A!:x,y,z
server 1 open 5 idle
view 1 q in 4
view 1 r in 7
device 1 upper 5 dial 4 idle
held 1 q in 4 E B:x,z
held 1 r in 7 A!:x,y,z";

/// Worlds of 180 and of 240 events.
const LONG: &str = "\
devices 1
dial 1: connection 1; admit 1 1: done; ask 1: nothing; open 1: connection 2; ask 1: nothing; ask 1: nothing
ask 1: nothing; ask 1: nothing; ask 1: nothing; cmd create r: OK; ask 1: nothing; ask 1: nothing; ask 1: nothing
cmd ready r: OK; ask 1: nothing; ask 1: nothing; ask 1: nothing; ask 1: nothing; ask 1: nothing; ask 1: nothing
cmd insert r - E:y,x B: OK; ask 1: nothing; ask 1: nothing; ask 1: nothing; ask 1: nothing; ask 1: nothing
ask 1: nothing; ask 1: nothing; ask 1: nothing; ask 1: nothing; ask 1: nothing; ask 1: nothing; ask 1: nothing
accept 1 2: done; read 1: heartbeat; ask 1: roReqAll; hear 1: roListAll 1; got 1: taken; back 1: taken
ask 1: roReq r; cmd script r E text84: OK; hear 1: roList r 4; got 1: taken; cmd script r E text21: OK
ask 1: heartbeat; cmd script r E text97: OK; send 1: nothing; hear 1: heartbeat; got 1: taken; ask 1: nothing
cmd script r E text27: OK; send 1: script r 3 4; ask 1: nothing; cmd script r B text13: OK; read 1: roAck r OK
ask 1: nothing; ask 1: nothing; back 1: taken; ask 1: nothing; send 1: edit r 4; ask 1: nothing
read 1: roAck r OK; back 1: taken; ask 1: nothing; cmd insert r - D:y: OK; ask 1: nothing; send 1: edit r 5
read 1: roAck r OK; ask 1: nothing; cmd script r E text68: OK; back 1: taken; ask 1: nothing
cmd imove r D - y: OK; ask 1: nothing; send 1: edit r 6; cmd insert r D G:z,x F: OK; ask 1: nothing; cut 1: done
read 1: roAck r OK; open 1: connection 3; ask 1: nothing; accept 1 3: done; read 1: heartbeat; ask 1: roReqAll
hear 1: roListAll 1; got 1: taken; cmd script r D text32: OK; ask 1: roReq r; hear 1: roAck r NOT NOW
want 1 r: done; got 1: taken; back 1: taken; ask 1: roReq r; hear 1: roList r 13; send 1: nothing; got 1: taken
ask 1: heartbeat; hear 1: heartbeat; got 1: taken; send 1: script r 9 13; read 1: roAck r OK; ask 1: nothing
ask 1: nothing; ask 1: nothing; cmd script r D text79: OK; back 1: taken; ask 1: nothing; ask 1: nothing
cmd script r E text91: OK; send 1: script r 7 13; read 1: roAck r OK; ask 1: nothing; ask 1: nothing
back 1: taken; ask 1: nothing; ask 1: nothing; cmd drop r A B: MISSING A; send 1: script r 12 13; ask 1: nothing
read 1: roAck r OK; back 1: taken; miss 1: done; send 1: edit r 13; cmd isub r B x y: MISSING x
read 1: roAck r OK; back 1: taken; send 1: edit r 14; cmd script r E text99: OK; read 1: roAck r OK
back 1: taken; send 1: edit r 15; read 1: roAck r OK; back 1: taken; send 1: nothing; send 1: nothing
send 1: nothing; send 1: nothing; send 1: nothing; send 1: nothing; send 1: nothing; send 1: nothing
send 1: nothing; send 1: nothing; dial 1: connection 4; admit 1 4: done; send 1: nothing; ask 1: roReq r
send 1: nothing; send 1: nothing; open 1: connection 5; hear 1: roAck r NOT NOW; accept 1 5: done
read 1: heartbeat; back 1: taken; send 1: nothing; got 1: taken; ask 1: roReqAll; hear 1: roListAll 1
send 1: nothing; cmd iswap r B z x: MISSING z; got 1: taken; send 1: nothing; cmd script r E text46: OK
send 1: nothing; send 1: nothing; cmd script r G text34: OK; send 1: nothing; send 1: nothing; send 1: nothing
send 1: nothing; send 1: nothing; send 1: nothing; ask 1: roReq r; send 1: nothing; send 1: nothing
cmd iinsert r G - y: OK; hear 1: roList r 19; send 1: nothing; cmd ready r: OK; send 1: nothing
=
order r 20 E!:y,x B! G!:z,x,y F D!:y
server 1 open 5 idle
view 1 r listed 19
device 1 upper 5 dial 4 roReq r
held 1 r asked 16 E!:y,x B! G:z,x F D!:y

devices 3
open 2: connection 1; open 1: connection 2; open 3: connection 3; accept 2 1: done; cmd create q D A: OK
accept 3 3: done; cmd ready q: OK; accept 1 2: done; cmd create r F B E:x,z A: OK; cmd ready q: OK
cmd ready r: OK; cmd ready q: OK; cmd ready r: OK; cmd drop r F B: OK; cmd notready r: OK; cmd ready q: OK
cmd ready q: OK; cmd insert q - E:z C: OK; cmd ready q: OK; cmd notready r: OK
cmd create r E F:y,z D:z: ALREADY THERE r; cmd notready q: OK; cmd script q E text11: OK; cmd ready q: OK
cmd replace q: OK; cmd idrop r E x: OK; cmd script r E text87: OK; cmd insert q - A: OK; cmd drop r A: OK
cmd ready r: OK; cmd script r E text20: OK; cmd replace r C F: OK; cmd script r F text2: OK; cmd ready q: OK
cmd ready r: OK; read 2: heartbeat; back 2: taken; read 3: heartbeat; cmd ready r: OK; read 1: heartbeat
back 3: taken; send 2: nothing; back 1: taken; send 3: nothing; send 1: nothing; send 3: nothing
send 3: nothing; send 2: nothing; send 1: nothing; send 1: nothing; send 1: nothing; send 3: nothing
send 3: nothing; send 1: nothing; send 1: nothing; send 2: nothing; send 1: nothing; send 1: nothing
send 2: nothing; send 2: nothing; send 2: nothing; send 1: nothing; send 3: nothing; send 2: nothing
send 1: nothing; send 3: nothing; send 1: nothing; send 1: nothing; send 1: nothing; send 2: nothing
dial 1: connection 4; admit 1 4: done; send 1: nothing; send 3: nothing; send 2: nothing; ask 1: roReqAll
send 3: nothing; dial 2: connection 5; send 2: nothing; send 1: nothing; send 1: nothing; send 3: nothing
dial 3: connection 6; admit 2 5: done; send 3: nothing; hear 1: roListAll 2; ask 2: roReqAll
hear 2: roListAll 2; send 2: nothing; got 2: taken; cmd ready r: OK; got 1: taken; ask 1: roReq q
send 1: nothing; send 2: nothing; hear 1: roList q 14; got 1: taken; send 2: nothing; ask 2: roReq q
send 3: nothing; send 1: nothing; send 2: nothing; ask 1: heartbeat; hear 2: roList q 14; got 2: taken
send 1: nothing; send 2: nothing; send 1: nothing; hear 1: heartbeat; admit 3 6: done; send 1: again q 14
got 1: taken; read 1: roAck q OK; back 1: taken; ask 3: roReqAll; send 1: nothing; ask 2: heartbeat
send 1: nothing; ask 1: roReq r; send 3: nothing; hear 1: roList r 16; send 1: nothing; got 1: taken
ask 1: heartbeat; hear 3: roListAll 2; hear 1: heartbeat; hear 2: heartbeat; got 1: taken; got 2: taken
send 1: script r 12 16; got 3: taken; ask 1: nothing; send 2: again q 14; cmd swap q A A: OK; ask 2: roReq r
ask 1: nothing; ask 1: nothing; ask 1: nothing; ask 3: roReq q; send 3: nothing; hear 2: roList r 16
ask 1: nothing; got 2: taken; ask 2: heartbeat; hear 2: heartbeat; read 1: roAck r OK; ask 1: nothing
open 2: connection 7; accept 2 7: done; ask 1: nothing; read 2: heartbeat; got 2: taken; ask 1: nothing
ask 2: roReqAll; back 2: taken; hear 3: roList q 15; got 3: taken; ask 3: heartbeat; hear 2: roListAll 2
cmd move q - A: OK; hear 3: heartbeat; back 1: taken; ask 1: nothing; got 3: taken; got 2: taken
cmd ready r: OK; ask 3: roReq r; hear 3: roList r 17; ask 1: nothing; ask 2: roReq q; got 3: taken
ask 1: nothing; ask 3: heartbeat; ask 1: nothing; hear 3: heartbeat; hear 2: roList q 16; send 2: nothing
send 3: edit q 15; got 3: taken; send 1: again r 16; ask 1: nothing; cmd ready q: OK; got 2: taken
read 3: roAck q OK; read 1: roAck r OK; back 3: taken; cmd move q - A: OK; open 1: connection 8
accept 1 8: done; ask 2: heartbeat; hear 2: heartbeat; ask 3: nothing; send 3: script r 12 17; got 2: taken
ask 3: nothing; ask 3: nothing; ask 3: nothing; read 1: heartbeat; cmd script q A text17: OK; send 2: edit q 16
ask 1: roReqAll; cmd script q A text2: OK; read 2: roAck q OK; ask 2: roReq r; read 3: roAck r OK
hear 2: roList r 17; hear 1: roListAll 2; got 2: taken; got 1: taken; ask 1: roReq q; back 3: taken
ask 2: heartbeat; hear 1: roAck q NOT NOW; back 2: taken; send 3: again r 17; got 1: taken; hear 2: heartbeat
got 2: taken; back 1: taken; ask 1: roReq q; ask 3: nothing; ask 3: nothing; hear 1: roList q 20
send 1: nothing; send 1: nothing; send 2: script r 12 17; got 1: taken; ask 2: nothing; send 1: nothing
read 3: roAck r OK; ask 1: heartbeat; ask 3: nothing; hear 1: heartbeat; read 2: roAck r OK
send 1: script q 19 20; got 1: taken; back 3: taken; back 2: taken; send 2: again r 17; send 3: edit q 16
=
order q 20 A!
order r 17 C F!
server 1 open 8 script q 19 20
view 1 q in 20 scripts 1
view 1 r out
device 1 upper 8 dial 4 idle
held 1 q in 20 A
held 1 r out 16 C F!
server 2 open 7 again r 17
view 2 q in 17
view 2 r in 17 again
device 2 upper 7 dial 5 idle
held 2 q in 17 A
held 2 r in 17 C F!
server 3 open 3 edit q 16
view 3 q in 16
view 3 r in 17
device 3 upper 3 dial 6 idle
held 3 q in 16 A
held 3 r in 17 C F!";

/// A world's script, and its listing.
fn worked_of(alloc: Global, world: &str) -> Result<Worked, NoMemory> {
    let (devices, lines) = world.split_once("\n").unwrap_or((world, ""));
    let mut worked = begun(alloc, devices)?;
    let Some((events, state)) = lines.split_once("\n=\n") else {
        return Ok(worked);
    };
    for line in events.lines() {
        for event in line.split("; ") {
            push_event(alloc, &mut worked, event)?;
        }
    }
    push_state(&mut worked, state)?;
    Ok(worked)
}

/// How many of these worlds have their listings.
fn listed(alloc: Global, worlds: &str) -> Result<u64, NoMemory> {
    let mut count = 0u64;
    for world in worlds.split("\n\n") {
        let worked = worked_of(alloc, world)?;
        if other_listing(alloc, &worked)?.is_none() {
            count = count.saturating_add(1);
        }
    }
    Ok(count)
}

#[test]
fn worlds_have_the_listings_of_another_program(rt: HostRuntime) -> Result<(), Fail> {
    assert_eq!(rt; listed(rt.alloc(), SHORT)?, 6);
    assert_eq!(rt; listed(rt.alloc(), LONGER)?, 4);
    assert_eq!(rt; listed(rt.alloc(), LONG)?, 2);
    Ok(())
}
