//! Objects at the lower ports.
use crate::plays::played;
use std::test::Fail;

/// A gateway answers a request of an object from its own table, and tells all objects once they were asked for. The server asks
/// whenever it opened a connection.
const OBJECTS: &str = r#"s0l5 dial = done
s0l5 next = <mosReqAll><pause>0</pause></mosReqAll>
a-l5 accept = done
a-l5 hear ^ = +
s0l5 next = nothing
s0l5 back ^ = taken
s0l5 next = nothing
a-l6 dial = done
s0l6 accept = done
a-l6 next = <mosListAll><mosObj><objID>O1</objID><objSlug>one</objSlug></mosObj><mosObj><objID>O2</objID></mosObj></mosListAll>
s0l6 hear ^ = +
a-l6 back ^ = taken
a-l6 next = nothing
s0l6 hear <mosObj><objID>O1</objID><objSlug>two</objSlug></mosObj> = +O1
s0l6 hear <mosObj><objID>O1</objID><objSlug>two</objSlug></mosObj> = +O1
a-l5 hear <mosReqObj><objID>O1</objID></mosReqObj> = <mosObj><objID>O1</objID><objSlug>one</objSlug></mosObj>
a-l5 hear <mosReqObj><objID>O3</objID></mosReqObj> = -O3 MISSING O3
b-l7 accept = done
b-l7 hear <mosReqObj><objID>O3</objID></mosReqObj> = <mosObj><objID>O3</objID></mosObj>
b-l7 hear <mosReqObj><objID>O1</objID></mosReqObj> = -O1 MISSING O1
b-l7 hear <mosReqAll><pause>2</pause></mosReqAll> = +
b-l8 dial = done
b-l8 next = <mosObj><objID>O3</objID></mosObj>
b-l8 next = nothing
b-l8 back +O3 = taken
b-l8 next = nothing
b-l8 beat = done
b-l8 next = *
b-l8 back +O3 = unasked
b-l8 next = stale
s0l6 hear <mosReqObj><objID>O1</objID></mosReqObj> = -O1 NOT SUPPORTED
a-l5 hear <mosObj><objID>O9</objID></mosObj> = -O9 NOT SUPPORTED
s0l6 hear * = *
s2l6 hear * = stale"#;

#[test]
fn objects_are_told_at_the_lower_ports(rt: HostRuntime) -> Result<(), Fail> {
    assert_eq!(rt; played(rt.alloc(), OBJECTS)?, 0);
    Ok(())
}

/// An object that a gateway hasn't, and all of those that it has in one list.
const ASKED: &str = r#"a-l1 accept = done
a-l1 hear <mosReqObj><objID>O9</objID></mosReqObj> = <mosAck><objID>O9</objID><objRev>0</objRev><status>NACK</status><statusDescription>MISSING O9</statusDescription></mosAck>
a-l2 dial = done
a-l2 next = nothing
a-l1 hear <mosReqAll><pause>0</pause></mosReqAll> = <mosAck><objID></objID><objRev>0</objRev><status>ACK</status><statusDescription></statusDescription></mosAck>
a-l2 next = <mosListAll><mosObj><objID>O1</objID><objSlug>one</objSlug></mosObj><mosObj><objID>O2</objID></mosObj></mosListAll>"#;

#[test]
fn a_gateway_is_asked_for_an_object_and_for_all(rt: HostRuntime) -> Result<(), Fail> {
    assert_eq!(rt; played(rt.alloc(), ASKED)?, 0);
    Ok(())
}
