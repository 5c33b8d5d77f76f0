use frag_tree::{Identifier, IdentifierFault};
use std::test::Fail;

#[test]
fn an_identifier_is_no_keyword(rt: HostRuntime) -> Result<(), Fail> {
    let name = Identifier::new(rt.alloc(), b"F0_F")?;
    assert!(rt; name.copy()?.bytes() == b"F0_F".as_slice());
    let keyword = Identifier::new(rt.alloc(), b"type");
    assert!(rt; matches!(keyword, Err(IdentifierFault::NotAnIdentifier)));
    Ok(())
}
