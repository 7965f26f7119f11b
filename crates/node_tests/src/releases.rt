//! Releases that a gateway doesn't answer `OK`, since what it holds may not be what was released.
use crate::plays::played;
use std::test::Fail;

/// The READY crosses the gateway's request of its order, which it asks for since a connection of its own broke. It is answered
/// `NOT IN STEP`, and the request `NOT NOW`, since an edit of the order is on its way. The gateway asks again, and is released once
/// it has confirmed the list.
const CROSSED: &str = r#"s0u1 dial = *
a-u1 accept = done
a-u1 hear ^ = *
s0u1 back ^ = taken
s-e0 hear <roCreate><roID>R1</roID><roSlug>News</roSlug><story><storyID>A</storyID><item><itemID>1</itemID><objID>O1</objID><mosID>dev1</mosID></item></story></roCreate> = @R1 OK
s0u1 next = <roCreate><roID>R1</roID><roSlug>News</roSlug><story><storyID>A</storyID><item><itemID>1</itemID><objID>O1</objID><mosID>dev1</mosID></item></story></roCreate>
a-u1 hear ^ = @R1 OK
s0u1 back ^ = taken
a-u4 dial = done
s0u4 accept = done
a-u4 next = <roReqAll></roReqAll>
a-u4 cut = taken
a-u5 dial = done
s0u5 accept = done
a-u5 next = <roReqAll></roReqAll>
s0u5 hear ^ = <roListAll><ro><roID>R1</roID><roSlug>News</roSlug></ro></roListAll>
a-u5 back ^ = taken
a-u5 next = <roReq><roID>R1</roID></roReq>
s-e0 hear <roReadyToAir><roID>R1</roID><roAir>READY</roAir></roReadyToAir> = @R1 OK
s0u1 next = <roReadyToAir><roID>R1</roID><roAir>READY</roAir></roReadyToAir>
a-u1 hear ^ = @R1 NOT IN STEP
a-u1 decks = 1=O1 ;
s0u5 hear <roReq><roID>R1</roID></roReq> = @R1 NOT NOW
a-u5 back ^ = taken
s0u1 back @R1 NOT IN STEP = taken
s0u1 next = nothing
a-u5 next = <roReq><roID>R1</roID></roReq>
s0u5 hear ^ = <roList><roID>R1</roID><roSlug>News</roSlug><story><storyID>A</storyID><item><itemID>1</itemID><objID>O1</objID><mosID>dev1</mosID></item></story></roList>
a-u5 back ^ = taken
a-u1 decks = 1=O1 ;
s0u1 next = nothing
a-u5 next = *
s0u5 hear ^ = *
a-u5 back ^ = taken
s0u1 next = <roReadyToAir><roID>R1</roID><roAir>READY</roAir></roReadyToAir>
a-u1 hear ^ = @R1 OK
s0u1 back ^ = taken
a-u1 decks = 1=O1 !;
s0u1 next = nothing"#;

#[test]
fn a_release_that_crosses_a_request_comes_again(rt: HostRuntime) -> Result<(), Fail> {
    assert_eq!(rt; played(rt.alloc(), CROSSED)?, 0);
    Ok(())
}

/// A gateway that was told an edit that doesn't apply, one that is on a new connection, and one that never heard of the order aren't
/// in step: each answers READY so, and its decks stay as they were. On a former connection it hears nothing.
const OUT_OF_STEP: &str = r#"a-u1 accept = done
a-u1 hear <roCreate><roID>R1</roID><roSlug>News</roSlug><story><storyID>A</storyID><item><itemID>1</itemID><objID>O1</objID><mosID>dev1</mosID></item></story></roCreate> = @R1 OK
a-u1 hear <roElementAction operation="SWAP"><roID>R1</roID><element_source><storyID>A</storyID><storyID>X</storyID></element_source></roElementAction> = @R1 MISSING X
a-u1 hear <roReadyToAir><roID>R1</roID><roAir>READY</roAir></roReadyToAir> = @R1 NOT IN STEP
a-u1 decks = 1=O1 ;
a-u1 hear <roReplace><roID>R1</roID><roSlug>News</roSlug><story><storyID>B</storyID><item><itemID>2</itemID><objID>O2</objID><mosID>dev1</mosID></item></story></roReplace> = @R1 OK
a-u1 decks = 2=O2 ;
a-u1 hear <roReadyToAir><roID>R1</roID><roAir>READY</roAir></roReadyToAir> = @R1 OK
a-u1 decks = 2=O2 !;
a-u1 hear <roReadyToAir><roID>R1</roID><roAir>NOT READY</roAir></roReadyToAir> = @R1 OK
a-u1 decks = 2=O2 ;
a-u1 hear <roReadyToAir><roID>R2</roID><roAir>READY</roAir></roReadyToAir> = @R2 NOT IN STEP
a-u2 accept = done
a-u1 hear <roReadyToAir><roID>R1</roID><roAir>READY</roAir></roReadyToAir> = stale
a-u2 hear <roReadyToAir><roID>R1</roID><roAir>READY</roAir></roReadyToAir> = @R1 NOT IN STEP
a-u2 decks = 2=O2 ;
a-u2 leave = taken
a-u2 hear <roReadyToAir><roID>R1</roID><roAir>READY</roAir></roReadyToAir> = stale"#;

#[test]
fn a_release_out_of_step_is_refused(rt: HostRuntime) -> Result<(), Fail> {
    assert_eq!(rt; played(rt.alloc(), OUT_OF_STEP)?, 0);
    Ok(())
}
