//! Scripts of stories that a gateway reads.
use crate::plays::played;
use std::test::Fail;

/// A script is taken in step, where its story is there. What the decks play stays, but a released order has to be released again.
/// After a script of a story that isn't there the gateway is out of step, and takes none.
const SCRIPTS: &str = r#"a-u1 accept = done
a-u1 hear <roStorySend><roID>R1</roID><storyID>A</storyID><storyBody>hi</storyBody></roStorySend> = @R1 NOT IN STEP
a-u1 hear <roCreate><roID>R1</roID><roSlug>News</roSlug><story><storyID>A</storyID><item><itemID>1</itemID><objID>O1</objID><mosID>dev1</mosID></item></story></roCreate> = @R1 OK
a-u1 hear <roReadyToAir><roID>R1</roID><roAir>READY</roAir></roReadyToAir> = @R1 OK
a-u1 decks = 1=O1 !;
a-u1 hear <roStorySend><roID>R1</roID><storyID>A</storyID><storyBody>hi</storyBody></roStorySend> = @R1 OK
a-u1 decks = 1=O1 ;
a-u1 hear <roStorySend><roID>R1</roID><storyID>A</storyID><storyBody>ho</storyBody></roStorySend> = @R1 OK
a-u1 holds = <roList><roID>R1</roID><roSlug>News</roSlug><story><storyID>A</storyID><item><itemID>1</itemID><objID>O1</objID><mosID>dev1</mosID></item></story></roList>
a-u1 hear <roReadyToAir><roID>R1</roID><roAir>READY</roAir></roReadyToAir> = @R1 OK
a-u1 decks = 1=O1 !;
a-u1 hear <roStorySend><roID>R1</roID><storyID>X</storyID><storyBody>hi</storyBody></roStorySend> = @R1 MISSING X
a-u1 hear <roStorySend><roID>R1</roID><storyID>A</storyID><storyBody>hi</storyBody></roStorySend> = @R1 NOT IN STEP
a-u1 decks = 1=O1 !;
a-u1 hear <roDelete><roID>R1</roID></roDelete> = @R1 OK
a-u1 hear <roStorySend><roID>R1</roID><storyID>A</storyID><storyBody>hi</storyBody></roStorySend> = @R1 MISSING R1
a-u1 decks = ;"#;

#[test]
fn a_script_is_read_in_step(rt: HostRuntime) -> Result<(), Fail> {
    assert_eq!(rt; played(rt.alloc(), SCRIPTS)?, 0);
    Ok(())
}
